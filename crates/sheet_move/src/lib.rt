// Sheets moved from one version to the other, over bytes alone. docs/SHEETS.md has both versions byte by byte.
#![tactic(auto)]

ghost use Rattle.std.specs.Prelude.{◌≡◌, length};
ghost use Rattle.mesh.specs.Limits.{most_links, most_places};
ghost use Rattle.sheet.specs.Format.{VERSION, ZONED};
ghost use Rattle.sheet.specs.Says.{version_number};
ghost use Rattle.sheet_move.specs.Says.{Moved};
ghost use Rattle.sheet_move.specs.Needs.{Movable};

use sheet::{Flaw, Head, Version};

// The paths of a sheet that was checked, taken into the slices lent for that with their zones, and written in version `to`.
fn moved_in(
    from: Version,
    to: Version,
    head: Head,
    longest: usize,
    bytes: &[u8],
    places: &mut [u64],
    counts: &mut [u64],
    targets: &mut [u64],
    zones: &mut [u32],
    out: &mut [u8],
) -> Result<usize, Flaw>
    requires { Movable (version_number from) bytes.now head.mesh.kind head.mesh.size head.source longest head.paths (length places.old) (length counts.old) (length targets.old) (length zones.old) }
    ensures { Moved (version_number from) (version_number to) bytes.now out.old result out.new }
{
    let was = from.number();
    sheet_take::take_paths(
        was,
        bytes,
        head.source,
        longest,
        head.paths,
        places,
        counts,
        targets,
    );
    sheet_take::take_zones(was, bytes, head.paths, zones);
    sheet_write::put_zoned(to.number(), head, places, counts, zones, out)
}

// The same, in room of its own: as much as any mesh wants.
fn moved(
    from: Version,
    to: Version,
    head: Head,
    longest: usize,
    bytes: &[u8],
    out: &mut [u8],
) -> Result<usize, Flaw>
    requires { Movable (version_number from) bytes.now head.mesh.kind head.mesh.size head.source longest head.paths most_places most_links most_links most_links }
    ensures { Moved (version_number from) (version_number to) bytes.now out.old result out.new }
{
    let mut places = [0u64; mesh::MOST_PLACES];
    let mut counts = [0u64; mesh::MOST_LINKS];
    let mut targets = [0u64; mesh::MOST_LINKS];
    let mut zones = [0u32; mesh::MOST_LINKS];
    moved_in(
        from,
        to,
        head,
        longest,
        bytes,
        &mut places,
        &mut counts,
        &mut targets,
        &mut zones,
        out,
    )
}

// A sheet of version `from` checked, and then written in version `to`.
fn move_sheet(from: Version, to: Version, bytes: &[u8], out: &mut [u8]) -> Result<usize, Flaw>
    ensures { Moved (version_number from) (version_number to) bytes.now out.old result out.new }
{
    let head = sheet_check::check_in(from.number(), bytes)?;
    let longest = mesh::places_in(head.mesh) - 1;
    moved(from, to, head, longest as usize, bytes, out)
}

// Moves a sheet of version 1 to version 2, with zone 0 for each path: writes it at the front of `out`, and gives its length. Refuses with what the reader of version 1
// refuses with, in its order, but its 8: a sheet of version 2 with 31; then with 8 where `out` is too short; and then writes nothing.
pub fn to_two(bytes: &[u8], out: &mut [u8]) -> Result<usize, Flaw>
    ensures { Moved VERSION ZONED bytes.now out.old result out.new }
{
    move_sheet(Version::One, Version::Two, bytes, out)
}

// Moves a sheet of version 2 back to version 1. Refuses in the same order, a sheet of version 1 with 31, and before 8 with 38, the path in it, the first zone that is
// not 0. Both ways round give the same bytes.
pub fn to_one(bytes: &[u8], out: &mut [u8]) -> Result<usize, Flaw>
    ensures { Moved ZONED VERSION bytes.now out.old result out.new }
{
    move_sheet(Version::Two, Version::One, bytes, out)
}
