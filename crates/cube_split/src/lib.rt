// A fan through doors in a cube, built by recursion over the dimensions in a grid (crate `cube_rows`), which is the lent places themselves.
// Inner: `fan_through` is called by the planners that check a request first, and so meet its `requires`.
#![tactic(auto)]

ghost use Rattle.std.specs.Prelude.{◌≡◌, ℕ, ◌+◌, ◌-◌, ◌*◌, ◌^◌, ◌<◌, ◌≤◌, length, get_or};
ghost use Rattle.cube_split.specs.Plan.{Asked, Planned};
ghost use Rattle.cube_split.specs.Fan.{Begun, Settled, Spread, Sought, Given};

pub use cube_moves::Start;
use paths::FILLER;

// Paths from the start to the targets of the rows m, in the dimensions that are free there, through doors that are not shut.
pub fn plan(start: Start, m: u64, w: usize, grid: &mut [u64])
    requires { Asked start.free start.s start.shut m w grid.old }
    ensures { Planned start.free start.s start.shut m w grid.old grid.new }
{
    let r = cube_moves::sort(start, m, w, grid);
    let left = r.left;
    let more = r.more;
    let rest = Start {
        free: start.free,
        s: start.s,
        shut: more,
    };
    if left == 0 {
        return;
    }
    let x = bits::lowest(left);
    let others = bits::flip(left, x);
    if others == 0 {
        cube_moves::single(rest, x as usize, w, grid);
        return;
    }
    let c = cube_moves::divide(rest, left, w, grid);
    let far = c.side;
    plan(far, c.far, w, grid);
    let used = cube_moves::bring(c.b, far.s, more, c.far, c.home, w, grid);
    let near = Start {
        free: far.free,
        s: start.s,
        shut: far.shut | used,
    };
    plan(near, cube_rows::less(left, c.far), w, grid);
}

// The first n dimensions, or rows.
fn full(n: u32) -> u64
    requires { n ≤ 32 }
    ensures { result ≡ 2 ^ n - 1 }
{
    bits::power(n) - 1
}

// ---- the rows begun, and turned into paths as they are lent

// Each row holds its target.
fn begin(targets: &[u64], w: usize, grid: &mut [u64])
    requires { (2 ≤ w) × (length targets.now * w ≤ length grid.old) }
    ensures { Begun w targets.now (length targets.now) grid.old grid.new }
{
    for (j, t) in targets.iter().enumerate() {
        cube_rows::start(grid, w, j, *t);
    }
}

// The row at the place `at` becomes a path as it is lent: its source, its relays, filler. Returns its hops.
fn settle(s: u64, w: usize, at: usize, places: &mut [u64]) -> u64
    requires { (get_or places.old at 0 < w) × (at + w ≤ length places.old) }
    ensures { Settled s w at places.old places.new result }
{
    let n = places[at];
    scan::shift(places, at + 1, at + w - n as usize, n as usize);
    scan::fill(places, at + 1 + n as usize, w - 1 - n as usize, FILLER);
    places[at] = s;
    n
}

// The first k rows become paths, and their hops are counted.
fn spread(s: u64, w: usize, k: usize, places: &mut [u64], counts: &mut [u64])
    requires { ((j : ℕ) → j < k → get_or places.old (j * w) 0 < w) × (k * w ≤ length places.old) × (k ≤ length counts.old) }
    ensures { Spread s w k places.old places.new counts.old counts.new }
{
    for j in 0..k {
        counts[j] = settle(s, w, j * w, places);
    }
}

// A fan from s to the targets in the cube of n dimensions, through doors that are not shut: path i from the place i * (n + 2) on, source first, and
// its hops at i.
pub fn fan_through(
    n: u32,
    s: u64,
    shut: u64,
    targets: &[u64],
    places: &mut [u64],
    counts: &mut [u64],
)
    requires { Sought n s shut targets.now places.old counts.old }
    ensures { Given n s shut targets.now places.old counts.old places.new counts.new }
{
    let k = targets.len();
    let w = n as usize + 2;
    begin(targets, w, places);
    let start = Start {
        free: full(n),
        s,
        shut,
    };
    plan(start, full(k as u32), w, places);
    spread(s, w, k, places, counts);
}
