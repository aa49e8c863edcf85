// Sheets read: the fan of bytes into lent slices. docs/SHEETS.md has the format byte by byte.
#![tactic(auto)]

ghost use Rattle.std.specs.Prelude.{◌≡◌, true, ◌≤◌, ltb};
ghost use Rattle.scan.specs.Scan.{pick};
ghost use Rattle.mesh.specs.Kinds.{mesh_of, known};
ghost use Rattle.mesh.specs.Says.{short};
ghost use Rattle.sheet_check.specs.Needs.{Bodied};
ghost use Rattle.sheet.specs.Format.{VERSION};
ghost use Rattle.sheet.specs.Says.{version_number};
ghost use Rattle.sheet_read.specs.Says.{Read, ReadZoned, ReadEither};

use sheet::{Flaw, Head, Version, Versioned};

// Whether so many places, counts and places for targets are too few for the paths.
fn lacking(head: Head, places: usize, counts: usize, targets: usize) -> bool
    requires { (known head.mesh.kind head.mesh.size ≡ true) × (head.paths ≤ (mesh_of head.mesh.kind head.mesh.size).links) }
    ensures { result ≡ pick (short (mesh_of head.mesh.kind head.mesh.size) head.paths places counts) true (ltb targets head.paths) }
{
    mesh::short(head.mesh, head.paths, places, counts) || targets < head.paths
}

// The paths after the head of a sheet of that version: checked where there is room, and then taken into it.
fn body(
    version: Version,
    head: Head,
    bytes: &[u8],
    places: &mut [u64],
    counts: &mut [u64],
    targets: &mut [u64],
) -> Result<Head, Flaw>
    requires { Bodied (version_number version) bytes.now head.mesh.kind head.mesh.size head.source head.paths }
    ensures { Read (version_number version) bytes.now places.old counts.old targets.old result places.new counts.new targets.new }
{
    if lacking(head, places.len(), counts.len(), targets.len()) {
        return Err(Flaw::NoRoom);
    }
    sheet_check::check_paths(version.number(), head, bytes)?;
    let longest = (mesh::places_in(head.mesh) - 1) as usize;
    sheet_take::take_paths(
        version.number(),
        bytes,
        head.source,
        longest,
        head.paths,
        places,
        counts,
        targets,
    );
    Ok(head)
}

// Reads one sheet of version 1, and fills the places with its paths, source first and 2^64 - 1 after the end of each, the counts with their hops and the targets with their
// last relays; what lies beyond them stays. Gives the mesh, the source and how many paths. Path i begins at place i * W, where W is `mesh.places()`. Refuses, in
// this order, with 30 (fewer than 16 bytes, or a wrong length field), 31, 32, 33, 37, 8, path by path 30 (its two bytes of hops are missing), 34 and 30 (its
// relays run out), 36, then 2, 5, 6, 7 with their place, 22 and 24 path by path with path and place, and then changes nothing.
pub fn read(
    bytes: &[u8],
    places: &mut [u64],
    counts: &mut [u64],
    targets: &mut [u64],
) -> Result<Head, Flaw>
    ensures { Read VERSION bytes.now places.old counts.old targets.old result places.new counts.new targets.new }
{
    let head = sheet_check::head(1, bytes)?;
    body(Version::One, head, bytes, places, counts, targets)
}

// The same with zones, and first the want of room for them.
fn zoned_body(
    version: Version,
    head: Head,
    bytes: &[u8],
    places: &mut [u64],
    counts: &mut [u64],
    targets: &mut [u64],
    zones: &mut [u32],
) -> Result<Head, Flaw>
    requires { Bodied (version_number version) bytes.now head.mesh.kind head.mesh.size head.source head.paths }
    ensures { ReadZoned (version_number version) bytes.now places.old counts.old targets.old zones.old result places.new counts.new targets.new zones.new }
{
    if zones.len() < head.paths {
        return Err(Flaw::NoRoom);
    }
    let read = body(version, head, bytes, places, counts, targets)?;
    sheet_take::take_zones(version.number(), bytes, head.paths, zones);
    Ok(read)
}

// Reads one sheet of that version with its zones.
fn read_in(
    version: Version,
    bytes: &[u8],
    places: &mut [u64],
    counts: &mut [u64],
    targets: &mut [u64],
    zones: &mut [u32],
) -> Result<Head, Flaw>
    ensures { ReadZoned (version_number version) bytes.now places.old counts.old targets.old zones.old result places.new counts.new targets.new zones.new }
{
    let head = sheet_check::head(version.number(), bytes)?;
    zoned_body(version, head, bytes, places, counts, targets, zones)
}

// Reads one sheet of either version: what `read` does, with the zones of the paths besides, which are 0 in version 1, and gives the version too. Refuses in the
// same order: with 31 any version but 1 and 2, and with 8 too few zones as well, of version 1 too; and then changes nothing.
pub fn read_zoned(
    bytes: &[u8],
    places: &mut [u64],
    counts: &mut [u64],
    targets: &mut [u64],
    zones: &mut [u32],
) -> Result<Versioned<Version>, Flaw>
    ensures { ReadEither bytes.now places.old counts.old targets.old zones.old result places.new counts.new targets.new zones.new }
{
    let version = sheet_check::version_of(bytes);
    sheet::with_version(
        version,
        read_in(version, bytes, places, counts, targets, zones),
    )
}
