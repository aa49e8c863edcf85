// A mesh as a DIMACS edge file: what may be exported, and what a file that is read comes to. `dimacs_write` writes such files, and `dimacs_read` reads them.
#![tactic(auto)]

ghost use Rattle.std.specs.Prelude.{◌≡◌};
ghost use Rattle.answers.specs.Told.{against};
ghost use Rattle.answers.specs.Order.{first};
ghost use Rattle.mesh.specs.Kinds.{kind_of};
ghost use Rattle.dimacs.specs.declared.Fault.TheVariants.{Refused};
ghost use Rattle.dimacs.specs.Says.{export_faults_in, fault_number, fault_place};

pub use answers::Reason;
use answers::Refusal;
use mesh::Mesh;

// The most relays of a mesh that is exported: a cube of 11 dimensions has as many, and a two-level mesh of order 3.
pub const MOST_RELAYS: u64 = 2048;

// The bytes that are enough for every file: a cube of 11 dimensions takes 123,009.
pub const MOST_BYTES: usize = 123009;

// What stands against a file that is to be a mesh. Where nothing does, it is the mesh, with each link once.
#[derive(Clone, Copy)]
pub enum Fault {
    // 1, 52, 46: there is no such mesh, or none that is exported.
    Refused(Refusal),
    // 47: a line is malformed; its number, from 1.
    Malformed(usize),
    // 48: no `p` line, or one with other counts.
    WrongCounts,
    // 49: an `e` line is no link of the mesh, or is there already; its number, from 1.
    WrongLink(usize),
    // 50: links are missing.
    Missing,
}

impl From<Refusal> for Fault {
    ghost from_gives = { λ why r. r ≡ Refused why };

    fn from(why: Refusal) -> Fault {
        Self::Refused(why)
    }
}

impl Reason for Fault {
    ghost number_told = { fault_number };

    ghost path_told = { λ why. 0 };

    ghost place_told = { fault_place };

    // The specification's number.
    fn number(self) -> u64 {
        match self {
            Fault::Refused(why) => why.number(),
            Fault::Malformed(_) => 47,
            Fault::WrongCounts => 48,
            Fault::WrongLink(_) => 49,
            Fault::Missing => 50,
        }
    }

    // Nothing is about a path.
    fn path(self) -> usize {
        0
    }

    // The line that is told with 47 and 49; else 0.
    fn place(self) -> usize {
        match self {
            Fault::Refused(why) => why.place(),
            Fault::Malformed(line) => line,
            Fault::WrongCounts => 0,
            Fault::WrongLink(line) => line,
            Fault::Missing => 0,
        }
    }
}

// What stands against a mesh as a file: 1, 52, 46.
pub fn exported(mesh: Mesh) -> Result<(), Refusal>
    ensures { against result ≡ first (export_faults_in (kind_of mesh.kind) mesh.size) }
{
    if !mesh.planned() {
        return Err(mesh::unplanned(mesh));
    }
    if MOST_RELAYS < mesh::relays_in(mesh) {
        return Err(Refusal::TooLarge);
    }
    Ok(())
}
