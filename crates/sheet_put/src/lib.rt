// The paths of a sheet written, piece by piece. Inner: callers meet each `requires`.
// Stays: the version is a number, as in `sheet::head_bytes`.
#![tactic(auto)]

ghost use Rattle.std.specs.Prelude.{◌≡◌, ◌+◌, ◌*◌, ◌≤◌, length, get_or};
ghost use Rattle.std.proofs.lemmas.List.Edits.{sets};
ghost use Rattle.paths.specs.Lists.{ahead};
ghost use Rattle.sheet.specs.Format.{head, zone_bytes, relays_bytes, path_bytes, paths_bytes, paths_of};
ghost use Rattle.sheet_put.specs.Needs.{Headed, Paths};
ghost use Rattle.scan.specs.Scan.{spot_of};
ghost use Rattle.sheet_put.specs.Stray.{stray_at, stray_in};
ghost use Rattle.sheet_put.specs.Total.{total};

// Writes n numbers of a list, from the place `from` of it on, 8 bytes each, at the place `at`.
fn put_relays(places: &[u64], from: usize, n: usize, at: usize, out: &mut [u8])
    requires { (from + n ≤ length places.now) × (at + n * 8 ≤ length out.old) }
    ensures { out.new ≡ sets out.old at (relays_bytes (ahead places.now from n)) }
{
    for i in 0..n {
        octets::put_eight(places[from + i], at + i * 8, out);
    }
}

// The zone of path i, and 0 where the list has none.
fn zone_of(zones: &[u32], i: usize) -> u64
    ensures { result ≡ get_or zones.now i 0 }
{
    zones.get(i).map_or(0, |zone| u64::from(*zone))
}

// Writes a zone at the place `at`, where the version has one.
fn put_zone(version: u64, zone: u64, at: usize, out: &mut [u8])
    requires { at + head version ≤ length out.old + 2 }
    ensures { out.new ≡ sets out.old at (zone_bytes version zone) }
{
    if version == 2 {
        octets::put(zone, 4, at, out);
    }
}

// Writes the path of h hops whose relays after the source stand in the places from `from` on.
fn put_path(
    version: u64,
    zone: u64,
    places: &[u64],
    from: usize,
    h: usize,
    at: usize,
    out: &mut [u8],
)
    requires { (from + h ≤ length places.now) × (at + head version + h * 8 ≤ length out.old) }
    ensures { out.new ≡ sets out.old at (path_bytes version zone (ahead places.now from h)) }
{
    octets::put(h as u64, 2, at, out);
    put_zone(version, zone, at + 2, out);
    put_relays(places, from, h, at + sheet::head_bytes(version), out);
}

// Writes k paths with their zones, of w places each, from the place `at` on.
pub fn put_paths(
    version: u64,
    w: usize,
    places: &[u64],
    counts: &[u64],
    zones: &[u32],
    k: usize,
    at: usize,
    out: &mut [u8],
)
    requires { Paths w k (length places.now) counts.now × (at + total version counts.now k ≤ length out.old) }
    ensures { out.new ≡ sets out.old at (paths_bytes version zones.now (paths_of w places.now counts.now k)) }
{
    let head = sheet::head_bytes(version);
    let mut to = at;
    for i in 0..k {
        let h = counts[i] as usize;
        put_path(version, zone_of(zones, i), places, i * w + 1, h, to, out);
        to += head + h * 8;
    }
}

// The bytes that k paths take.
pub fn bytes_of(version: u64, counts: &[u64], k: usize) -> usize
    requires { Headed k counts.now }
    ensures { result ≡ total version counts.now k }
{
    let head = sheet::head_bytes(version);
    let mut n: usize = 0;
    for h in &counts[..k] {
        n += head + *h as usize * 8;
    }
    n
}

// The first of k paths with a zone that is not 0.
fn first_zone(zones: &[u32], k: usize) -> Option<usize>
    ensures { spot_of result ≡ stray_at zones.now k }
{
    for i in 0..k {
        if zone_of(zones, i) != 0 {
            return Some(i);
        }
    }
    None
}

// The same where the version has no place for it; nowhere in version 2.
pub fn stray(version: u64, zones: &[u32], k: usize) -> Option<usize>
    ensures { spot_of result ≡ stray_in version zones.now k }
{
    if version == 2 {
        return None;
    }
    first_zone(zones, k)
}
