// An answer written as text: `fan k` and a line for each path, or `refused N P`.
#![tactic(auto)]

ghost use Rattle.std.specs.Prelude.{◌≡◌, ◌*◌, ◌≤◌, ltb, length};
ghost use Rattle.answers.specs.Told.{answer_told};
ghost use Rattle.scan.specs.Scan.{any};
ghost use Rattle.line.specs.Written as specs;
ghost use Rattle.line_write.specs.Rooms.{Roomy, Front};

use answers::{Reason, Refusal};

// The bytes that are enough for every refusal.
const REFUSAL_ROOM: usize = 50;

// Whether one of the first k counts is too large for a path of w places.
fn any_overlong(k: usize, w: usize, counts: &[u64]) -> bool
    requires { k ≤ length counts.now }
    ensures { result ≡ any (specs.overlong w counts.now) 0 k }
{
    counts[..k].iter().any(|hops| w as u64 <= *hops)
}

// Whether so many numbers are too few for k times w: no product is made that could be too large.
fn few(have: usize, k: usize, w: usize) -> bool
    ensures { result ≡ ltb have (k * w) }
{
    k != 0 && have / k < w
}

// Whether there is room for the longest text of k paths of w places.
fn short(bytes: usize, k: usize, w: usize) -> bool
    ensures { result ≡ ltb bytes (specs.fan_room k w) }
{
    bytes < 25 || k != 0 && (bytes - 25) / 21 / k <= w
}

fn wanting(k: usize, w: usize, places: &[u64], counts: &[u64], bytes: usize) -> bool
    ensures { result ≡ specs.wanting k w places.now counts.now bytes }
{
    counts.len() < k || few(places.len(), k, w) || any_overlong(k, w, counts) || short(bytes, k, w)
}

// `fan k` and the lines of its paths, at the front.
fn put_fan(out: &mut [u8], k: usize, w: usize, places: &[u64], counts: &[u64]) -> usize
    requires { Roomy k w places.now counts.now (length out.old) }
    ensures { Front out.old (specs.fan_text k w places.now counts.now) result out.new }
{
    let numbers = [k as u64];
    let p = line_put::put_head(out, b"fan", &numbers);
    line_put::put_paths(out, p, k, w, places, counts)
}

// Writes `fan k` and the k paths that stand in `places` and `counts`, each in w places, as text at the front of `out`, and answers how many bytes: a line for
// each path with its hops and then all its relays. Of the paths 0, 2, 3 and 0, 1 it is `fan 2`, `2 0 2 3` and `1 0 1`. Refuses with 8 where there are fewer
// than k counts, k * w places or `fan_room` bytes, or where a path is longer than its places; a refusal changes nothing.
pub fn write_fan(
    k: usize,
    w: usize,
    places: &[u64],
    counts: &[u64],
    out: &mut [u8],
) -> Result<u64, Refusal>
    ensures told { answer_told result ≡ specs.write_told (specs.wanting k w places.now counts.now (length out.old)) (specs.fan_text k w places.now counts.now) }
    ensures left { out.new ≡ specs.write_leaves (specs.wanting k w places.now counts.now (length out.old)) (specs.fan_text k w places.now counts.now) out.old }
{
    if wanting(k, w, places, counts, out.len()) {
        return Err(Refusal::NoRoom);
    }
    Ok(put_fan(out, k, w, places, counts) as u64)
}

// Writes `refused N P`, the number and the place of a refusal, as text at the front of `out`, and answers how many bytes: for a target at place 1 that is the
// source it is `refused 6 1`. Refuses with 8 where there are fewer than 50 bytes; a refusal changes nothing.
pub fn write_refusal(why: Refusal, out: &mut [u8]) -> Result<u64, Refusal>
    ensures told { answer_told result ≡ specs.write_told (ltb (length out.old) (specs.refused_room)) (specs.refused_text why) }
    ensures left { out.new ≡ specs.write_leaves (ltb (length out.old) (specs.refused_room)) (specs.refused_text why) out.old }
{
    if out.len() < REFUSAL_ROOM {
        return Err(Refusal::NoRoom);
    }
    let number = why.number();
    let place = why.place() as u64;
    let numbers = [number, place];
    Ok(line_put::put_head(out, b"refused", &numbers) as u64)
}
