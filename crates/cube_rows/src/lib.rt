// Paths in a grid of rows of w places: how many relays the row's path has after its source, and at the row's end these, the target last.
// Inner: its functions are called by the planner's crates, which meet their `requires`.
#![tactic(auto)]

ghost use Rattle.std.specs.Prelude.{◌≡◌, List, [], ◌∷◌, ℕ, ◌+◌, ◌*◌, ◌^◌, ◌<◌, ◌≤◌, length};
ghost use Rattle.cube_math.specs.Masks as masks;
ghost use Rattle.cube_rows.specs.Grid as specs;

// The members of a that are not in b: `less(7, 2)` is 5.
pub fn less(a: u64, b: u64) -> u64
    ensures { result ≡ masks.less a b }
{
    a ^ (a & b)
}

// Stays: the width beside the grid, here and in the crates above. The planners lend the grid on from call to call, at times to be read and at times to be written; a struct of the two
// would be of two kinds, each made anew at every call.
// The target of row j.
pub fn target(grid: &[u64], w: usize, j: usize) -> u64
    requires { (2 ≤ w) × (j * w + w ≤ length grid.now) }
    ensures { result ≡ specs.target w grid.now j }
{
    grid[j * w + w - 1]
}

// The path of row j is t alone.
pub fn start(grid: &mut [u64], w: usize, j: usize, t: u64)
    requires { (2 ≤ w) × (j * w + w ≤ length grid.old) }
    ensures { specs.Sets w grid.old grid.new j (t ∷ []) }
{
    let at = j * w;
    grid[at] = 1;
    grid[at + w - 1] = t;
}

// The path of row j has one relay more, v, in front.
pub fn push(grid: &mut [u64], w: usize, j: usize, v: u64)
    requires { (j * w + w ≤ length grid.old) × (length (specs.hops w grid.old j) + 1 < w) }
    ensures { specs.Sets w grid.old grid.new j (v ∷ specs.hops w grid.old j) }
{
    let at = j * w;
    let n = grid[at];
    grid[at + w - 1 - n as usize] = v;
    grid[at] = n + 1;
}

// The first relay of the path of row j, which has one.
pub fn first(grid: &[u64], w: usize, j: usize) -> u64
    requires { (j * w + w ≤ length grid.now) × (length (specs.hops w grid.now j) + 1 < w) × (0 < length (specs.hops w grid.now j)) }
    ensures { (x : ℕ) (l : List ℕ) → specs.hops w grid.now j ≡ x ∷ l → result ≡ x }
{
    let at = j * w;
    let n = grid[at];
    grid[at + w - n as usize]
}
