// The paths of a sheet looked through, and then taken out of its bytes. Inner: callers meet each `requires`.
// Stays: the version is a number, as in `sheet::head_bytes`.
#![tactic(auto)]

ghost use Rattle.std.specs.Prelude.{◌≡◌, ◌+◌, ◌*◌, ◌≤◌, ◌<◌, length};
ghost use Rattle.std.proofs.lemmas.List.Edits.{sets};
ghost use Rattle.sheet.specs.Format.{HEAD, head, after, zone_at, zones_at, relays_at, row};
ghost use Rattle.sheet.specs.Says.{flaw_of};
ghost use Rattle.sheet_take.specs.Says.{looked, wrong_at, tell_stride, stride_told, TakenPaths};
ghost use Rattle.sheet_take.specs.Needs.{Taken, Zoned};

use paths::FILLER;
use sheet::Flaw;

// Looks at path i, which begins at the place `at`: where the next one begins, or what is wrong with this one.
fn look_at(version: u64, longest: u64, bytes: &[u8], at: usize, i: usize) -> Result<usize, Flaw>
    requires { (at ≤ length bytes.now) × (longest ≤ 206) }
    ensures { stride_told result ≡ tell_stride (wrong_at version longest bytes.now at i) (after version bytes.now at) }
{
    let left = bytes.len() - at;
    if left < 2 {
        return Err(Flaw::Cut);
    }
    let h = octets::number(bytes, at, 2);
    if h == 0 || longest < h {
        return Err(Flaw::Hops(i));
    }
    let size = sheet::head_bytes(version) + (h as usize) * 8;
    if left < size {
        return Err(Flaw::Cut);
    }
    Ok(at + size)
}

// Looks through k paths of a sheet of that version.
pub fn look(version: u64, longest: u64, bytes: &[u8], k: usize) -> Result<(), Flaw>
    requires { (HEAD ≤ length bytes.now) × (longest ≤ 206) }
    ensures { flaw_of result ≡ looked version longest bytes.now HEAD 0 k }
{
    let mut at: usize = 16;
    for i in 0..k {
        at = look_at(version, longest, bytes, at, i)?;
    }
    if at < bytes.len() {
        return Err(Flaw::LeftOver);
    }
    Ok(())
}

// Takes n relays from the place `at` of the bytes on, to the place `to`.
pub fn take_relays(bytes: &[u8], at: usize, n: usize, to: usize, places: &mut [u64])
    requires { (at + n * 8 ≤ length bytes.now) × (to + n ≤ length places.old) }
    ensures { places.new ≡ sets places.old to (relays_at bytes.now at n) }
{
    for i in 0..n {
        places[to + i] = octets::number_eight(bytes, at + i * 8);
    }
}

// Takes a path of h hops, whose relays begin at the place `at`, into its row, of so many hops at most: the source first, filler after the end.
fn take_path(
    bytes: &[u8],
    at: usize,
    h: usize,
    source: u64,
    longest: usize,
    to: usize,
    places: &mut [u64],
)
    requires { (at + h * 8 ≤ length bytes.now) × (h ≤ longest) × (to + longest < length places.old) }
    ensures { places.new ≡ sets places.old to (row source longest (relays_at bytes.now at h)) }
{
    places[to] = source;
    take_relays(bytes, at, h, to + 1, places);
    scan::fill(places, to + 1 + h, longest - h, FILLER);
}

// Takes k paths, which were looked through, into their rows, with their hops and their last relays.
pub fn take_paths(
    version: u64,
    bytes: &[u8],
    source: u64,
    longest: usize,
    k: usize,
    places: &mut [u64],
    counts: &mut [u64],
    targets: &mut [u64],
)
    requires { Taken version bytes.now longest k (length places.old) (length counts.old) (length targets.old) }
    ensures { TakenPaths version bytes.now source longest k places.old counts.old targets.old places.new counts.new targets.new }
{
    let head = sheet::head_bytes(version);
    let mut at: usize = 16;
    for i in 0..k {
        let h = octets::number(bytes, at, 2) as usize;
        take_path(
            bytes,
            at + head,
            h,
            source,
            longest,
            i * (longest + 1),
            places,
        );
        at += head + h * 8;
        counts[i] = h as u64;
        targets[i] = octets::number(bytes, at - 8, 8);
    }
}

// The zone of the path that begins at the place `at`, and 0 where the version has none.
fn zone_at(version: u64, bytes: &[u8], at: usize) -> u32
    requires { at + head version ≤ length bytes.now }
    ensures { result ≡ zone_at version bytes.now at }
{
    if version == 2 {
        octets::number(bytes, at + 2, 4) as u32
    } else {
        0
    }
}

// Takes the zones of k paths, which were looked through.
pub fn take_zones(version: u64, bytes: &[u8], k: usize, zones: &mut [u32])
    requires { Zoned version bytes.now k (length zones.old) }
    ensures { zones.new ≡ sets zones.old 0 (zones_at version bytes.now HEAD k) }
{
    let head = sheet::head_bytes(version);
    let mut at: usize = 16;
    for i in 0..k {
        zones[i] = zone_at(version, bytes, at);
        at += head + octets::number(bytes, at, 2) as usize * 8;
    }
}
