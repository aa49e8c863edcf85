// Sheets of either version, with a zone for each path: written, read, and moved from one version to the other.
ghost use Rattle.sheet.specs.Format.{VERSION, ZONED};
ghost use Rattle.host.specs.Says.{WroteZonedIn, ReadZonedIn, MovedIn};

use mesh::Mesh;
use shapes::{GustAnswer, GustZonedReading};

// `sheet_write::write_zoned`: the value is how many bytes the sheet takes.
pub fn gust_write_zoned_sheet(
    version: u64,
    kind: u64,
    size: u64,
    source: u64,
    targets: &[u64],
    places: &[u64],
    counts: &[u64],
    zones: &[u32],
    out: &mut [u8],
) -> GustAnswer
    ensures { WroteZonedIn version kind size source targets.now places.now counts.now zones.now out.old result out.new }
{
    shapes::of_written(sheet_write::write_zoned(
        version,
        Mesh { kind, size },
        source,
        targets,
        places,
        counts,
        zones,
        out,
    ))
}

// `sheet_read::read_zoned`.
pub fn gust_read_zoned_sheet(
    bytes: &[u8],
    places: &mut [u64],
    counts: &mut [u64],
    targets: &mut [u64],
    zones: &mut [u32],
) -> GustZonedReading
    ensures { ReadZonedIn bytes.now places.old counts.old targets.old zones.old result places.new counts.new targets.new zones.new }
{
    shapes::of_versioned(sheet_read::read_zoned(bytes, places, counts, targets, zones))
}

// `sheet_move::to_two`: the value is how many bytes the sheet of version 2 takes.
pub fn gust_sheet_to_2(bytes: &[u8], out: &mut [u8]) -> GustAnswer
    ensures { MovedIn VERSION ZONED bytes.now out.old result out.new }
{
    shapes::of_written(sheet_move::to_two(bytes, out))
}

// `sheet_move::to_one`: the value is how many bytes the sheet of version 1 takes.
pub fn gust_sheet_to_1(bytes: &[u8], out: &mut [u8]) -> GustAnswer
    ensures { MovedIn ZONED VERSION bytes.now out.old result out.new }
{
    shapes::of_written(sheet_move::to_one(bytes, out))
}
