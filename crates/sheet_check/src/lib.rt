// Sheets checked: whether bytes are a sheet, with no slice lent. docs/SHEETS.md has the format byte by byte.
#![tactic(auto)]

mod body;
mod heads;

ghost use Rattle.std.specs.Prelude.{◌≡◌};
ghost use Rattle.sheet.specs.Format.{VERSION, version_of};
ghost use Rattle.sheet.specs.Says.{reading_told};
ghost use Rattle.sheet_check.specs.Says as says;

pub use body::check_paths;
pub use heads::{head, version_of};
use sheet::{Flaw, Head, Version, Versioned};

// Reads one sheet of that version and takes nothing out of it: gives the mesh, the source and how many paths. Refuses with what the reader refuses with, in
// its order, but 8.
// Stays: the version is a number, of which the function promises what it tells, whatever it is (`check_against`).
pub fn check_in(version: u64, bytes: &[u8]) -> Result<Head, Flaw>
    ensures { reading_told result ≡ says.sheet_told bytes.now (says.check_against version bytes.now) }
{
    let told = head(version, bytes)?;
    check_paths(version, told, bytes)
}

// The same of version 1: a sheet of version 2 is refused with 31.
pub fn check(bytes: &[u8]) -> Result<Head, Flaw>
    ensures { reading_told result ≡ says.sheet_told bytes.now (says.check_against VERSION bytes.now) }
{
    check_in(1, bytes)
}

// The same of both versions: gives the sheet's version too, and refuses with 31 any but 1 and 2.
pub fn check_either(bytes: &[u8]) -> Result<Versioned<Version>, Flaw>
    ensures { says.Told bytes.now (says.check_against (version_of bytes.now) bytes.now) result }
{
    let version = version_of(bytes);
    sheet::with_version(version, check_in(version.number(), bytes))
}
