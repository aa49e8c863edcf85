// The exports of host/src/zones.rt.
ghost use Rattle.sheet.specs.Format.{VERSION, ZONED};
ghost use Rattle.host.specs.Says.{WroteZonedIn, ReadZonedIn, MovedIn};

use shapes::{GustAnswer, GustZonedReading};

#[unsafe(no_mangle)]
pub extern "C" fn gust_write_zoned_sheet(
    version: u64,
    kind: u64,
    size: u64,
    source: u64,
    targets: &[u64],
    places: &[u64],
    counts: &[u64],
    zones: &[u32],
    out: &mut [u8],
) -> GustAnswer
    ensures { WroteZonedIn version kind size source targets.now places.now counts.now zones.now out.old result out.new }
{
    host::gust_write_zoned_sheet(
        version, kind, size, source, targets, places, counts, zones, out,
    )
}

#[unsafe(no_mangle)]
pub extern "C" fn gust_read_zoned_sheet(
    bytes: &[u8],
    places: &mut [u64],
    counts: &mut [u64],
    targets: &mut [u64],
    zones: &mut [u32],
) -> GustZonedReading
    ensures { ReadZonedIn bytes.now places.old counts.old targets.old zones.old result places.new counts.new targets.new zones.new }
{
    host::gust_read_zoned_sheet(bytes, places, counts, targets, zones)
}

#[unsafe(no_mangle)]
pub extern "C" fn gust_sheet_to_2(bytes: &[u8], out: &mut [u8]) -> GustAnswer
    ensures { MovedIn VERSION ZONED bytes.now out.old result out.new }
{
    host::gust_sheet_to_2(bytes, out)
}

#[unsafe(no_mangle)]
pub extern "C" fn gust_sheet_to_1(bytes: &[u8], out: &mut [u8]) -> GustAnswer
    ensures { MovedIn ZONED VERSION bytes.now out.old result out.new }
{
    host::gust_sheet_to_1(bytes, out)
}
