// The head of a sheet read, of the version that is asked for.
ghost use Rattle.std.specs.Prelude.{◌≡◌, true};
ghost use Rattle.mesh.specs.Kinds.{mesh_of, planned};
ghost use Rattle.sheet.specs.Format.{version_of};
ghost use Rattle.sheet.specs.Says.{reading_told, tell_read, version_number};
ghost use Rattle.sheet_check.specs.Says.{sheet_told, head_against, count_against};

use mesh::Mesh;
use sheet::{Flaw, Head, Version};

// The head, where so many paths can be asked for.
fn counted(head: Head) -> Result<Head, Flaw>
    requires { planned head.mesh.kind head.mesh.size ≡ true }
    ensures { reading_told result ≡ tell_read (count_against head.mesh.kind (mesh_of head.mesh.kind head.mesh.size).links head.paths) head.mesh.kind head.mesh.size head.source head.paths }
{
    if head.paths == 0 || mesh::links_in(head.mesh) < head.paths as u64 {
        return Err(Flaw::Paths);
    }
    if sheet::lone(head.mesh.kind, head.paths) {
        return Err(Flaw::Lone);
    }
    Ok(head)
}

// The version to read a sheet in that may have either: 2 where it says so, else 1, which then is refused where it is not its own.
pub fn version_of(bytes: &[u8]) -> Version
    ensures { version_number result ≡ version_of bytes.now }
{
    if 4 < bytes.len() && bytes[4] == 2 {
        Version::Two
    } else {
        Version::One
    }
}

// What the first 16 bytes tell, or what is wrong with them.
// Stays: the version is a number, as in `sheet::head_bytes`.
pub fn head(version: u64, bytes: &[u8]) -> Result<Head, Flaw>
    ensures { reading_told result ≡ sheet_told bytes.now (head_against version bytes.now) }
{
    let n = bytes.len();
    if n < 16 || octets::number(bytes, 0, 4) != (n - 4) as u64 {
        return Err(Flaw::Cut);
    }
    if u64::from(bytes[4]) != version {
        return Err(Flaw::Version);
    }
    let mesh = Mesh {
        kind: u64::from(bytes[5]),
        size: u64::from(bytes[6]),
    };
    if !mesh.planned() {
        return Err(Flaw::NoMesh);
    }
    counted(Head {
        mesh,
        source: octets::number_eight(bytes, 8),
        paths: usize::from(bytes[7]),
    })
}
