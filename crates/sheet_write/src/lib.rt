// Sheets written: a fan as bytes, in version 1 or with its zones in version 2. docs/SHEETS.md has the format byte by byte.
#![tactic(auto)]

ghost use Rattle.std.specs.Prelude.{◌≡◌, ◌≤◌, ◌<◌, true, length, MatchResult};
ghost use Rattle.std.proofs.lemmas.List.Edits.{sets};
ghost use Rattle.std.proofs.Math.Option.{some};
ghost use Rattle.judge.specs.Says.{number_of, fault_told};
ghost use Rattle.sheet.specs.Says.{flaw_of, version_number};
ghost use Rattle.sheet.specs.declared.Flaw.TheVariants as Flaw;
ghost use Rattle.sheet_write.specs.Says as says;
ghost use Rattle.sheet_write.specs.Needs.{Sheeted};
ghost use Rattle.sheet_write.specs.Heads.{head_bytes};

use answers::Refusal;
use judge::Fault;
use mesh::Mesh;
use sheet::{Flaw, Head, Version};

// Writes the 16 bytes before the paths, which take n bytes.
fn put_head(version: u64, head: Head, n: usize, out: &mut [u8])
    requires { (16 ≤ length out.old) × (n < 65536) }
    ensures { out.new ≡ sets out.old 0 (head_bytes version head.mesh.kind head.mesh.size head.source head.paths n) }
{
    octets::put(n as u64 + 12, 4, 0, out);
    octets::put(version, 1, 4, out);
    octets::put(head.mesh.kind, 1, 5, out);
    octets::put(head.mesh.size, 1, 6, out);
    octets::put(head.paths as u64, 1, 7, out);
    octets::put(head.source, 8, 8, out);
}

// Writes the sheet of the paths, with their zones where the version has them, where it fits.
fn lay_sheet(
    version: u64,
    head: Head,
    places: &[u64],
    counts: &[u64],
    zones: &[u32],
    out: &mut [u8],
) -> Result<usize, Flaw>
    requires { Sheeted head.mesh.kind head.mesh.size head.paths (length places.now) counts.now × (version < 256) }
    ensures { says.Laid version zones.now head.mesh.kind head.mesh.size head.source head.paths places.now counts.now out.old result out.new }
{
    let w = mesh::places_in(head.mesh) as usize;
    let n = sheet_put::bytes_of(version, counts, head.paths);
    if out.len() < n + 16 {
        return Err(Flaw::NoRoom);
    }
    put_head(version, head, n, out);
    sheet_put::put_paths(version, w, places, counts, zones, head.paths, 16, out);
    Ok(n + 16)
}

// Writes the sheet of the paths in version 1 where it fits. For callers that know that they are a fan.
pub fn put_sheet(head: Head, places: &[u64], counts: &[u64], out: &mut [u8]) -> Result<usize, Flaw>
    requires { Sheeted head.mesh.kind head.mesh.size head.paths (length places.now) counts.now }
    ensures { says.Put head.mesh.kind head.mesh.size head.source head.paths places.now counts.now out.old result out.new }
{
    lay_sheet(1, head, places, counts, &[], out)
}

// The same in either version: with 38 where a zone is not 0 and the version has no place for it, and then with 8.
// Stays: the version is a number, of which the function promises what it writes, whatever it is.
pub fn put_zoned(
    version: u64,
    head: Head,
    places: &[u64],
    counts: &[u64],
    zones: &[u32],
    out: &mut [u8],
) -> Result<usize, Flaw>
    requires { Sheeted head.mesh.kind head.mesh.size head.paths (length places.now) counts.now × (version < 256) }
    ensures { says.PutIn version zones.now head.mesh.kind head.mesh.size head.source head.paths places.now counts.now out.old result out.new }
{
    if let Some(i) = sheet_put::stray(version, zones, head.paths) {
        return Err(Flaw::Zone(i));
    }
    lay_sheet(version, head, places, counts, zones, out)
}

// The version of a number.
fn version_of(number: u64) -> Result<Version, Flaw>
    ensures { MatchResult result (λ v. version_number v ≡ number) (λ f. (f ≡ Flaw.Version) × (says.unknown number ≡ true)) }
{
    match number {
        1 => Ok(Version::One),
        2 => Ok(Version::Two),
        _ => Err(Flaw::Version),
    }
}

// What the judge has against a fan that is to be written, told as a flaw: where a slice is too short, and else that it is none.
fn unwritten(fault: Fault) -> Flaw
    ensures { some result ≡ says.ruling_against (number_of (fault_told fault)) }
{
    match fault {
        Fault::Refused(why) => match why {
            Refusal::NoRoom => Flaw::NoRoom,
            _ => Flaw::NotAFan,
        },
        Fault::Found(_) => Flaw::NotAFan,
    }
}

// What stands against a fan that is to be written, where a slice besides may be lacking; and against a mesh that has no sheets.
fn judged(
    mesh: Mesh,
    source: u64,
    targets: &[u64],
    places: &[u64],
    counts: &[u64],
    lacking: bool,
) -> Result<(), Flaw>
    ensures { flaw_of result ≡ says.ruling_against (says.ruled_in lacking mesh.kind mesh.size source targets.now places.now counts.now) }
{
    if !mesh.planned() {
        return Err(Flaw::NotAFan);
    }
    match judge::judge_with(mesh, source, targets, places, counts, lacking) {
        Ok(()) => Ok(()),
        Err(fault) => Err(unwritten(fault)),
    }
}

// The writer of both versions, where zones may be lacking.
fn write_in(
    version: u64,
    mesh: Mesh,
    source: u64,
    targets: &[u64],
    places: &[u64],
    counts: &[u64],
    zones: &[u32],
    lacking: bool,
    out: &mut [u8],
) -> Result<usize, Flaw>
    ensures { says.WroteIn version lacking zones.now mesh.kind mesh.size source targets.now places.now counts.now out.old result out.new }
{
    if sheet::lone(mesh.kind, targets.len()) {
        return Err(Flaw::Lone);
    }
    let version = version_of(version)?;
    judged(mesh, source, targets, places, counts, lacking)?;
    let paths = targets.len();
    let head = Head {
        mesh,
        source,
        paths,
    };
    put_zoned(version.number(), head, places, counts, zones, out)
}

// Writes the sheet of a fan from the source to the targets at the front of `out`, in version 1, and gives its length. Path i begins at place i * W of the places, where W is
// `mesh.places()`, and its hops stand in the counts at i. In the cube of 1 dimension, from 0 to 1, it is 00 00 00 16 01 01 01 01, eight 00, 00 01, seven 00,
// 01: 26 bytes. Refuses with 37 a single target in a two-level mesh, before everything else; with 35 what is no request or no fan, and a mesh that has no
// sheets; with 8 where places, counts or, for a fan, `out` are too short; and then writes nothing.
pub fn write(
    mesh: Mesh,
    source: u64,
    targets: &[u64],
    places: &[u64],
    counts: &[u64],
    out: &mut [u8],
) -> Result<usize, Flaw>
    ensures { says.Wrote mesh.kind mesh.size source targets.now places.now counts.now out.old result out.new }
{
    write_in(1, mesh, source, targets, places, counts, &[], false, out)
}

// The same in either version, with a zone for each path. In version 2, with zone 258 for that path, it is 00 00 00 1a 02 01 01 01, eight 00, 00 01 00 00 01 02,
// seven 00, 01: 30 bytes. Refuses besides with 31 any version but 1 and 2, right after 37; with 8 too few zones too, as too few counts; and with 38, the path in
// it, the first zone that is not 0 where version 1 is to be written, before 8 for `out`.
pub fn write_zoned(
    version: u64,
    mesh: Mesh,
    source: u64,
    targets: &[u64],
    places: &[u64],
    counts: &[u64],
    zones: &[u32],
    out: &mut [u8],
) -> Result<usize, Flaw>
    ensures { says.WroteZoned version mesh.kind mesh.size source targets.now places.now counts.now zones.now out.old result out.new }
{
    let lacking = zones.len() < targets.len();
    write_in(
        version, mesh, source, targets, places, counts, zones, lacking, out,
    )
}
