// Sheets: a fan as bytes. docs/SHEETS.md has the format byte by byte; `sheet_write` writes them and `sheet_read` reads them.
#![tactic(auto)]

ghost use Rattle.std.specs.Prelude.{◌≡◌};
ghost use Rattle.sheet.specs.Format.{head};
ghost use Rattle.sheet.specs.Says as says;

pub use answers::Reason;
use mesh::Mesh;

// Why a sheet is not written or not read.
#[derive(Clone, Copy)]
pub enum Flaw {
    // 30: fewer than 16 bytes, a length field that is not that of the bytes after it, or a path that runs out of bytes.
    Cut,
    // 31: the version is not one that is read or written.
    Version,
    // 32: no such kind or size.
    NoMesh,
    // 33: no path, or more than a relay has links.
    Paths,
    // 37: a single path of a two-level mesh, which protects nothing.
    Lone,
    // 8: a lent slice is too short.
    NoRoom,
    // 34: a path with no hops, or more than the longest has; its number, counted from 0.
    Hops(usize),
    // 35: what is to be written fails the judge.
    NotAFan,
    // 36: bytes are left over.
    LeftOver,
    // 2: the source is no relay of the mesh.
    SourceOut,
    // 5: a target, the last relay of a path, is no relay of the mesh; the path's number, which is the target's place in the list of targets.
    TargetOut(usize),
    // 6: a target is the source; its place.
    TargetIsSource(usize),
    // 7: a target is that of an earlier path; its place.
    TargetAgain(usize),
    // 22: a relay that is not linked to the one before, or out of range; path and place.
    NotLinked(usize, usize),
    // 24: a relay that stands earlier on its path, or on an earlier one; path and place.
    SeenAgain(usize, usize),
    // 38: a path with a zone that is not 0, where version 1 is to be written; its number, counted from 0.
    Zone(usize),
}

// The versions of sheets: the first without zones, the second with a zone for each path.
#[derive(Clone, Copy)]
pub enum Version {
    One,
    Two,
}

// What the head of a sheet tells: the mesh, the source and how many paths.
#[derive(Clone, Copy)]
pub struct Head {
    pub mesh: Mesh,
    pub source: u64,
    pub paths: usize,
}

// The same of a sheet of either version, with its own: a `Version`, or a number.
#[derive(Clone, Copy)]
pub struct Versioned<V> {
    pub version: V,
    pub head: Head,
}

impl Reason for Flaw {
    ghost number_told = { says.flaw_number };

    ghost path_told = { says.flaw_path };

    ghost place_told = { says.flaw_place };

    // The specification's number: `Flaw::LeftOver.number()` is 36.
    fn number(self) -> u64 {
        match self {
            Flaw::Cut => 30,
            Flaw::Version => 31,
            Flaw::NoMesh => 32,
            Flaw::Paths => 33,
            Flaw::Lone => 37,
            Flaw::NoRoom => 8,
            Flaw::Hops(_) => 34,
            Flaw::NotAFan => 35,
            Flaw::LeftOver => 36,
            Flaw::SourceOut => 2,
            Flaw::TargetOut(_) => 5,
            Flaw::TargetIsSource(_) => 6,
            Flaw::TargetAgain(_) => 7,
            Flaw::NotLinked(_, _) => 22,
            Flaw::SeenAgain(_, _) => 24,
            Flaw::Zone(_) => 38,
        }
    }

    // The path that 22, 24, 34 and 38 tell, and 0 of all else: of `Flaw::NotLinked(1, 3)` it is 1.
    fn path(self) -> usize {
        match self {
            Flaw::Hops(i) => i,
            Flaw::NotLinked(i, _) => i,
            Flaw::SeenAgain(i, _) => i,
            Flaw::Zone(i) => i,
            _ => 0,
        }
    }

    // The place that 5, 6, 7, 22 and 24 tell, and 0 of all else: of `Flaw::NotLinked(1, 3)` it is 3.
    fn place(self) -> usize {
        match self {
            Flaw::TargetOut(p) => p,
            Flaw::TargetIsSource(p) => p,
            Flaw::TargetAgain(p) => p,
            Flaw::NotLinked(_, p) => p,
            Flaw::SeenAgain(_, p) => p,
            _ => 0,
        }
    }
}

impl Version {
    // The number that stands in a sheet of this version.
    pub fn number(self) -> u64
        ensures { result ≡ says.version_number self }
    {
        match self {
            Version::One => 1,
            Version::Two => 2,
        }
    }
}

// How many bytes the sheet takes that is written, and 0 of a refusal.
pub fn bytes(written: Result<usize, Flaw>) -> usize
    ensures { result ≡ says.written_bytes (says.written_told written) }
{
    written.unwrap_or(0)
}

// What is read, and kind, size, source and number of paths 0 of a refusal.
pub fn told(read: Result<Head, Flaw>) -> Head
    ensures mesh { (result.mesh.kind ≡ says.read_kind (says.reading_told read)) × (result.mesh.size ≡ says.read_size (says.reading_told read)) }
    ensures source { result.source ≡ says.read_source (says.reading_told read) }
    ensures paths { result.paths ≡ says.read_count (says.reading_told read) }
{
    match read {
        Ok(head) => head,
        Err(_) => Head {
            mesh: Mesh { kind: 0, size: 0 },
            source: 0,
            paths: 0,
        },
    }
}

// The number of the version that is read, and 0 of a refusal.
pub fn version_told(read: Result<Versioned<Version>, Flaw>) -> u64
    ensures { result ≡ says.version_told read }
{
    match read {
        Ok(sheet) => sheet.version.number(),
        Err(_) => 0,
    }
}

// Whether so many paths are a lone one: a single path of a two-level mesh. A cube may have one path.
pub fn lone(kind: u64, k: usize) -> bool
    ensures { result ≡ says.lone kind k }
{
    kind == 2 && k == 1
}

// The bytes of a path before its relays: its hops, and in version 2 its zone.
// Stays: the version is a number, not a `Version`, since `sheet_check::check_in` promises what it tells of any (`check_against`).
pub fn head_bytes(version: u64) -> usize
    ensures { result ≡ head version }
{
    if version == 2 { 6 } else { 2 }
}

// What was read of a sheet of that version, with the version, whatever it is.
pub fn with_version<V: Copy>(version: V, read: Result<Head, Flaw>) -> Result<Versioned<V>, Flaw>
    ensures { result ≡ says.with_version version read }
{
    let head = read?;
    Ok(Versioned { version, head })
}
