// The pieces of an answer written as text: words, numbers, lines, paths. Inner: callers meet each `requires`.
#![tactic(auto)]

ghost use Rattle.std.specs.Prelude.{◌≡◌, ◌++◌, ◌+◌, ◌≤◌, length};
ghost use Rattle.decimal.specs.Write.{Put};
ghost use Rattle.line.specs.Text.{spaced, line_end};
ghost use Rattle.line.specs.Written as specs;
ghost use Rattle.line_put.specs.Writes.{one, Rows};

// A space and a number, from a place on; the place after them.
fn put_next(out: &mut [u8], at: usize, n: u64) -> usize
    requires { at + length (spaced (one n)) ≤ length out.old }
    ensures { Put out.old at (spaced (one n)) result out.new }
{
    out[at] = b' ';
    decimal::put(out, at + 1, n)
}

// The numbers of a list, a space before each.
fn put_list(out: &mut [u8], at: usize, list: &[u64]) -> usize
    requires { at + length (spaced list.now) ≤ length out.old }
    ensures { Put out.old at (spaced list.now) result out.new }
{
    let mut p = at;
    for n in list {
        p = put_next(out, p, *n);
    }
    p
}

// The same and a line end.
pub fn put_line(out: &mut [u8], at: usize, list: &[u64]) -> usize
    requires { at + length (spaced list.now ++ line_end) ≤ length out.old }
    ensures { Put out.old at (spaced list.now ++ line_end) result out.new }
{
    let p = put_list(out, at, list);
    out[p] = b'\n';
    p + 1
}

fn put_word(out: &mut [u8], word: &[u8]) -> usize
    requires { 0 + length word.now ≤ length out.old }
    ensures { Put out.old 0 word.now result out.new }
{
    let n = word.len();
    out[..n].copy_from_slice(word);
    n
}

// At the front, a word and a line of numbers: `fan 2`.
pub fn put_head(out: &mut [u8], word: &[u8], numbers: &[u64]) -> usize
    requires { 0 + length (word.now ++ (spaced numbers.now ++ line_end)) ≤ length out.old }
    ensures { Put out.old 0 (word.now ++ (spaced numbers.now ++ line_end)) result out.new }
{
    let p = put_word(out, word);
    put_line(out, p, numbers)
}

// A path's line: its hops and its relays.
fn put_path(out: &mut [u8], at: usize, hops: u64, relays: &[u64]) -> usize
    requires { at + length (specs.path_text hops relays.now) ≤ length out.old }
    ensures { Put out.old at (specs.path_text hops relays.now) result out.new }
{
    let p = decimal::put(out, at, hops);
    put_line(out, p, relays)
}

// The lines of k paths of w places each.
pub fn put_paths(
    out: &mut [u8],
    at: usize,
    k: usize,
    w: usize,
    places: &[u64],
    counts: &[u64],
) -> usize
    requires { Rows k w places.now counts.now × (at + length (specs.paths_text w places.now counts.now k) ≤ length out.old) }
    ensures { Put out.old at (specs.paths_text w places.now counts.now k) result out.new }
{
    let mut p = at;
    for i in 0..k {
        let hops = counts[i];
        let from = i * w;
        let end = from + hops as usize + 1;
        p = put_path(out, p, hops, &places[from..end]);
    }
    p
}
