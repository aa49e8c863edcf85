// One path against the rules: the first place at which something is wrong, for each thing that is looked for. Inner functions of the judge.
#![tactic(auto)]

ghost use Rattle.std.specs.Prelude.{◌≡◌, ℕ, ◌+◌, ◌-◌, ◌*◌, ◌≤◌, ◌<◌, length};
ghost use Rattle.scan.specs.Scan.{nowhere, seek, any, spot_of};
ghost use Rattle.paths.specs.Fan as fan;
ghost use Rattle.paths.specs.Finding as finding;
ghost use Rattle.judge_rows.specs.Rules.{rules_of};
ghost use Rattle.judge_rows.specs.Needs.{Row, Laid, Step, Held, After};
ghost use Rattle.judge_rows.specs.Looked.{Looked};

use mesh::Mesh;
use paths::FILLER;

// What a set of paths is to be: a fan, with paths from one source to each of its targets, or a bundle, with as many paths as links to one.
#[derive(Clone, Copy)]
pub enum Mode {
    Fan,
    Bundle,
}

// What paths are judged by: the mesh, what they are to be, and the places that a path takes.
#[derive(Clone, Copy)]
pub struct Rules {
    pub mesh: Mesh,
    pub mode: Mode,
    pub width: usize,
}

// What stands at place p of path i, where a path takes w places.
// Stays: rules, places and counts as parameters of their own, here and above. An `ensures` reads a struct of slices at two moments (`rows.entry.places.now`), so that in one every contract
// would grow by more than the lists of parameters shrink.
pub fn relay(w: usize, places: &[u64], i: usize, p: usize) -> u64
    requires { i * w + p < length places.now }
    ensures { result ≡ fan.relay w places.now i p }
{
    places[i * w + p]
}

// 22: whether the relay at place p is out of range, or not linked to the one before.
fn unlinked(rules: Rules, relays: u64, places: &[u64], i: usize, p: usize) -> bool
    requires { Step rules relays (length places.now) i p }
    ensures { result ≡ finding.unlinked (rules_of rules) places.now i p }
{
    let w = rules.width;
    let v = relay(w, places, i, p);
    relays <= v || !mesh::joined(rules.mesh, relay(w, places, i, p - 1), v)
}

// The first place of path i, of h hops, that is so.
pub fn unlinked_at(rules: Rules, places: &[u64], i: usize, h: usize) -> Option<usize>
    requires { Laid rules (length places.now) i h }
    ensures { spot_of result ≡ seek (finding.unlinked (rules_of rules) places.now i) 1 h }
{
    let mesh = rules.mesh;
    let relays = mesh::relays_in(mesh);
    for p in 1..h + 1 {
        if unlinked(rules, relays, places, i, p) {
            return Some(p);
        }
    }
    None
}

// Whether x stands on path j.
fn on(w: usize, places: &[u64], counts: &[u64], x: u64, j: usize) -> bool
    requires { Held w (length places.now) counts.now j }
    ensures { result ≡ finding.on w places.now counts.now x j }
{
    let h = counts[j] as usize;
    scan::among(places, j * w, h + 1, x)
}

// Whether x stands on one of the paths before path i.
fn on_earlier(w: usize, places: &[u64], counts: &[u64], x: u64, i: usize) -> bool
    requires { (j : ℕ) → j < i → Held w (length places.now) counts.now j }
    ensures { result ≡ any (finding.on w places.now counts.now x) 0 i }
{
    for j in 0..i {
        if on(w, places, counts, x, j) {
            return true;
        }
    }
    false
}

// Whether the relay at place p of a path of h hops may stand on earlier paths too: the source at place 0, and of a bundle the target at its end.
fn excepted(rules: Rules, h: usize, p: usize) -> bool
    ensures { result ≡ (rules_of rules).excepted h p }
{
    match rules.mode {
        Mode::Fan => p == 0,
        Mode::Bundle => p == 0 || p == h,
    }
}

// Whether path i, of h hops, and an earlier one are twins, which is told at place p: of a bundle they are where both are the bare link.
fn twinned(rules: Rules, counts: &[u64], i: usize, h: usize, p: usize) -> bool
    requires { (i ≤ length counts.now) × (h ≡ fan.hops counts.now i) }
    ensures { result ≡ finding.twinned (rules_of rules) counts.now i p }
{
    match rules.mode {
        Mode::Fan => false,
        Mode::Bundle => (p, h) == (1, 1) && scan::among(counts, 0, i, 1),
    }
}

// 24: whether the relay at place p stands earlier on this path or, the excepted places left out, on an earlier one, or is a twin's.
fn seen(rules: Rules, places: &[u64], counts: &[u64], i: usize, p: usize) -> bool
    requires { After rules (length places.now) counts.now i p }
    ensures { result ≡ finding.seen (rules_of rules) places.now counts.now i p }
{
    let w = rules.width;
    let x = relay(w, places, i, p);
    if scan::among(places, i * w, p, x) {
        return true;
    }
    let h = counts[i] as usize;
    if excepted(rules, h, p) {
        return twinned(rules, counts, i, h, p);
    }
    on_earlier(w, places, counts, x, i)
}

// The same of a relay x, by the marks of all relays looked at before: without its mark it is new, and else it is looked for.
fn seen_marked(
    rules: Rules,
    marks: &[u64],
    places: &[u64],
    counts: &[u64],
    i: usize,
    p: usize,
    x: u64,
) -> bool
    requires after { After rules (length places.now) counts.now i p }
    requires looked { Looked marks.now rules.width places.now counts.now i p }
    requires x_value { x ≡ fan.relay rules.width places.now i p }
    ensures { result ≡ finding.seen (rules_of rules) places.now counts.now i p }
{
    if marks::marked(marks, x) {
        return seen(rules, places, counts, i, p);
    }
    let h = counts[i] as usize;
    excepted(rules, h, p) && twinned(rules, counts, i, h, p)
}

// The first place of path i, of h hops, that is so. Where there is none, the path's relays are marked too.
pub fn seen_at(
    rules: Rules,
    marks: &mut [u64],
    places: &[u64],
    counts: &[u64],
    i: usize,
    h: usize,
) -> Option<usize>
    requires after { After rules (length places.now) counts.now i h }
    requires looked { Looked marks.old rules.width places.now counts.now i 0 }
    requires h_value { h ≡ fan.hops counts.now i }
    ensures result_value { spot_of result ≡ seek (finding.seen (rules_of rules) places.now counts.now i) 0 (h + 1) }
    ensures looked_2 { spot_of result ≡ nowhere → Looked marks.new rules.width places.now counts.now (i + 1) 0 }
{
    let w = rules.width;
    for p in 0..h + 1 {
        let x = relay(w, places, i, p);
        if seen_marked(rules, marks, places, counts, i, p, x) {
            return Some(p);
        }
        marks::put(marks, x);
    }
    None
}

// 25: the first unused place of path i, of h hops, that is not filled.
pub fn unfilled_at(rules: Rules, places: &[u64], i: usize, h: usize) -> Option<usize>
    requires { Row rules.width (length places.now) i h }
    ensures { spot_of result ≡ seek (finding.unfilled rules.width places.now i) (h + 1) (rules.width - (h + 1)) }
{
    let w = rules.width;
    for p in h + 1..w {
        if relay(w, places, i, p) != FILLER {
            return Some(p);
        }
    }
    None
}
