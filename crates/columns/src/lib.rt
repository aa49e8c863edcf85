// The columns of the paths of a fan or a bundle, one for each part of an entry. Inner functions of survivors.
#![tactic(auto)]

ghost use Rattle.std.specs.Prelude.{◌≡◌, true, ◌&&◌, [], ◌+◌, eqb, length, take};
ghost use Rattle.marks.specs.Marks.{words, marked};
ghost use Rattle.scan.specs.Scan.{pick, any, count, has};
ghost use Rattle.paths.specs.Fan.{hops};
ghost use Rattle.paths.specs.Whole as specs;
ghost use Rattle.paths.specs.Whole.{failed};
ghost use Rattle.judge_rows.specs.Needs.{Held};
ghost use Rattle.struck.specs.Struck.{key, Struck};
ghost use Rattle.mesh.specs.Kinds.{kind_of};
ghost use Rattle.columns.specs.Needs.{Copied, Marked, Filled};
ghost use Rattle.columns.specs.Says.{bundle_paths, ahead, marks, Columns};

use mesh::Mesh;
use requests::Facts;

// How many paths a bundle has: as many as a relay has links, and none where there is no such mesh.
pub fn bundle_paths(mesh: Mesh) -> usize
    ensures { result ≡ bundle_paths (kind_of mesh.kind) mesh.size }
{
    if mesh.known() {
        mesh.links_in() as usize
    } else {
        0
    }
}

// Whether the pair a, b is u, v in either order.
fn pair(a: u64, b: u64, u: u64, v: u64) -> bool
    ensures { result ≡ specs.pair a b u v }
{
    (a, b) == (u, v) || (a, b) == (v, u)
}

// Whether one of the pairs is u, v in either order; a last number without a partner is no pair.
fn cut(cuts: &[u64], u: u64, v: u64) -> bool
    ensures { result ≡ specs.cut cuts.now u v }
{
    let mut rest = cuts;
    while let [a, b, others @ ..] = rest {
        if pair(*a, *b, u, v) {
            return true;
        }
        rest = others;
    }
    false
}

// Whether x has stopped: without its mark it has not.
fn stopped_at(stopped: &[u64], hit: &[u64], x: u64) -> bool
    requires hit_len { length hit.now ≡ words }
    requires x_value { has stopped.now x ≡ true → marked hit.now (key x x) ≡ true }
    ensures { result ≡ has stopped.now x }
{
    marks::marked(hit, struck::key(x, x)) && scan::among(stopped, 0, stopped.len(), x)
}

// Whether the link u, v is cut: without its mark it is not.
fn cut_at(cuts: &[u64], hit: &[u64], u: u64, v: u64) -> bool
    requires hit_len { length hit.now ≡ words }
    requires v_value { specs.cut cuts.now u v ≡ true → marked hit.now (key u v) ≡ true }
    ensures { result ≡ specs.cut cuts.now u v }
{
    marks::marked(hit, struck::key(u, v)) && cut(cuts, u, v)
}

// Whether a relay on path i has stopped, where those that have are marked.
fn stopped_on(
    w: usize,
    places: &[u64],
    counts: &[u64],
    stopped: &[u64],
    hit: &[u64],
    i: usize,
) -> bool
    requires held { Held w (length places.now) counts.now i }
    requires struck { Struck hit.now w places.now counts.now stopped.now 0 i }
    ensures { result ≡ any (specs.stops w places.now (failed stopped.now []) i) 0 (hops counts.now i + 1) }
{
    let h = counts[i] as usize;
    for p in 0..h + 1 {
        let x = judge_rows::relay(w, places, i, p);
        if stopped_at(stopped, hit, x) {
            return true;
        }
    }
    false
}

// Whether a link on path i, from one relay to the next, is cut, where those that are are marked.
fn cut_on(w: usize, places: &[u64], counts: &[u64], cuts: &[u64], hit: &[u64], i: usize) -> bool
    requires held { Held w (length places.now) counts.now i }
    requires struck { Struck hit.now w places.now counts.now cuts.now 1 i }
    ensures { result ≡ any (specs.severs w places.now (failed [] cuts.now) i) 0 (hops counts.now i) }
{
    let h = counts[i] as usize;
    for p in 0..h {
        let u = judge_rows::relay(w, places, i, p);
        let v = judge_rows::relay(w, places, i, p + 1);
        if cut_at(cuts, hit, u, v) {
            return true;
        }
    }
    false
}

// Whether nothing on path i has failed, by the marks of the relays that have stopped and of the links that are cut.
fn whole(
    w: usize,
    places: &[u64],
    counts: &[u64],
    stopped: &[u64],
    cuts: &[u64],
    halts: &[u64],
    gaps: &[u64],
    i: usize,
) -> bool
    requires held { Held w (length places.now) counts.now i }
    requires struck { Struck halts.now w places.now counts.now stopped.now 0 i }
    requires struck_2 { Struck gaps.now w places.now counts.now cuts.now 1 i }
    ensures { result ≡ specs.whole w places.now counts.now (failed stopped.now cuts.now) i }
{
    !stopped_on(w, places, counts, stopped, halts, i) && !cut_on(w, places, counts, cuts, gaps, i)
}

// Writes for each of k paths whether it is whole, and counts those that are.
fn mark(
    w: usize,
    places: &[u64],
    counts: &[u64],
    stopped: &[u64],
    cuts: &[u64],
    k: usize,
    out: &mut [u64],
) -> u64
    requires { Marked w (length places.now) counts.now k (length out.old) }
    ensures value { result ≡ count (specs.whole w places.now counts.now (failed stopped.now cuts.now)) k }
    ensures out_after { out.new ≡ ahead k (marks (specs.whole w places.now counts.now (failed stopped.now cuts.now)) k) out.old }
{
    let mut halts = [0u64; marks::WORDS];
    struck::struck(w, places, counts, stopped, k, 0, &mut halts);
    let mut gaps = [0u64; marks::WORDS];
    struck::struck(w, places, counts, cuts, k, 1, &mut gaps);
    let mut n: u64 = 0;
    for i in 0..k {
        let one = u64::from(whole(w, places, counts, stopped, cuts, &halts, &gaps, i));
        out[i] = one;
        n += one;
    }
    n
}

// Writes the first k values of a list at the front of another.
pub fn copy<T: Copy>(from: &[T], k: usize, to: &mut [T])
    requires { Copied k (length from.now) (length to.old) }
    ensures { to.new ≡ ahead k (take k from.now) to.old }
{
    for i in 0..k {
        to[i] = from[i];
    }
}

// Fills the three columns for the paths to the targets, and counts the paths that are whole.
pub fn fill(
    w: usize,
    targets: &[u64],
    places: &[u64],
    counts: &[u64],
    stopped: &[u64],
    cuts: &[u64],
    ends: &mut [u64],
    hops: &mut [u64],
    wholes: &mut [u64],
) -> u64
    requires { Filled w (length places.now) counts.now (length targets.now) (length ends.old) (length hops.old) (length wholes.old) }
    ensures { Columns w targets.now places.now counts.now (failed stopped.now cuts.now) ends.old hops.old wholes.old result ends.new hops.new wholes.new }
{
    let k = targets.len();
    copy(targets, k, ends);
    copy(counts, k, hops);
    mark(w, places, counts, stopped, cuts, k, wholes)
}
