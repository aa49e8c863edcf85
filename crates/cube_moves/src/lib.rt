// The steps of the planner of a fan through doors, in a grid (crate `cube_rows`) whose rows hold their targets. Sets of dimensions and of rows are masks.
// Inner: its functions are called by the planner, which meets their `requires`.
#![tactic(auto)]

ghost use Rattle.std.specs.Prelude.{◌≡◌, [], ◌∷◌, ◌≢◌, ℕ, ◌+◌, ◌*◌, ◌<◌, ◌≤◌, length};
ghost use Rattle.std.specs.Int.Count.{ones};
ghost use Rattle.bits.specs.Bit as bb;
ghost use Rattle.cube_math.specs.Loops.{Sorting};
ghost use Rattle.cube_math.specs.Choose.{Chosen};
ghost use Rattle.cube_math.specs.Request.{Request, Settled};
ghost use Rattle.cube_rows.specs.Grid.{hops, target, Rows, New};
ghost use Rattle.std.specs.Iterator.{at_most};
ghost use Rattle.cube_moves.specs.Turn.{Turn};
ghost use Rattle.cube_moves.specs.Sort.{Doored, SortStep};
ghost use Rattle.cube_moves.specs.Lone.{Open, Ended, Lone, Alone};
ghost use Rattle.cube_moves.specs.Cut.{Like, Unlike, Kept, HomeOf, Parting, Marked, Beside, StoodIn};
ghost use Rattle.cube_moves.specs.Halves.{Divided};
ghost use Rattle.cube_moves.specs.Bring.{Ready, Turns, Homes, Fetched};

// Where paths start, and by which ways: the relay, the dimensions that are free, and those of them that are shut as the first of a path (its doors).
#[derive(Clone, Copy)]
pub struct Start {
    pub free: u64,
    pub s: u64,
    pub shut: u64,
}

// ---- sets of rows

// The members of a set of rows, the lowest first, each with its number below 64.
#[derive(Drop)]
struct Members(u64);

impl Iterator for Members {
    type Item = u32;

    ghost next_gives = { λ s r t. Turn s.0 r t.0 };

    ghost remaining = { λ s. at_most (ones s.0) };

    fn next(&mut self) -> Option<u32> {
        if self.0 == 0 {
            return None;
        }
        let j = bits::lowest(self.0);
        self.0 = bits::flip(self.0, j);
        Some(j)
    }
}

// ---- targets behind open doors

// The open door behind which t stands, as a set; none if there is none.
fn door(s: u64, doors: u64, t: u64) -> u64
    ensures { Doored s doors t result }
{
    let x = s ^ t;
    if bits::one_bit(x) {
        return x & doors;
    }
    0
}

// The rows that are left, and the doors that are shut.
#[derive(Clone, Copy)]
pub struct Sorted {
    pub left: u64,
    pub more: u64,
}

// One row, whose target is t.
fn sort_one(start: Start, left: u64, more: u64, t: u64, j: u32) -> Sorted
    requires { j < 64 }
    ensures { SortStep start.free start.s left more t j result.left result.more }
{
    let d = door(start.s, cube_rows::less(start.free, more), t);
    if d == 0 {
        return Sorted { left, more };
    }
    Sorted {
        left: bits::flip(left, j),
        more: more | d,
    }
}

// Leaves out each row whose target stands behind an open door, where it is reached at once, and shuts that door.
pub fn sort(start: Start, m: u64, w: usize, grid: &[u64]) -> Sorted
    requires { Rows w m grid.now × New w m grid.now × ((i : ℕ) → bb.bit i start.shut ≡ 1 → bb.bit i start.free ≡ 1) }
    ensures { Sorting start.free start.s start.shut m 0 result.left result.more (target w grid.now) (hops w grid.now) }
{
    let mut left = m;
    let mut more = start.shut;
    for j in Members(m) {
        let t = cube_rows::target(grid, w, j as usize);
        let r = sort_one(start, left, more, t, j);
        left = r.left;
        more = r.more;
    }
    Sorted { left, more }
}

// ---- one path

// An open door, one of x if there is such.
fn open_door(start: Start, x: u64) -> u32
    requires { ones start.shut < ones start.free }
    ensures { Open start.free start.shut result }
{
    let doors = cube_rows::less(start.free, start.shut);
    let good = x & doors;
    if good == 0 {
        return bits::lowest(doors);
    }
    bits::lowest(good)
}

// The end of the path of row j: the target d and, if d has not the bit i of `goal`, the relay before it. Returns the first of it.
fn end(d: u64, i: u32, goal: u64, j: usize, w: usize, grid: &mut [u64]) -> u64
    requires { (i < 64) × (3 ≤ w) × (j * w + w ≤ length grid.old) × (hops w grid.old j ≡ d ∷ []) }
    ensures { Ended d i goal j w grid.old grid.new result }
{
    if bits::bit(d ^ goal, i) {
        let u = bits::flip(d, i);
        cube_rows::push(grid, w, j, u);
        return u;
    }
    d
}

// One path, from s to the target of row j.
pub fn single(start: Start, j: usize, w: usize, grid: &mut [u64])
    requires { Lone start.free start.s start.shut (target w grid.old j) j w grid.old }
    ensures { Alone start.free start.s start.shut (target w grid.old j) j w grid.old grid.new }
{
    let d = cube_rows::target(grid, w, j);
    let i = open_door(start, start.s ^ d);
    let goal = bits::flip(start.s, i);
    let mut here = end(d, i, goal, j, w, grid);
    while here != goal {
        here = bits::flip(here, bits::lowest(here ^ goal));
        cube_rows::push(grid, w, j, here);
    }
}

// ---- two sides

// r, with j if x is 0.
fn keep(r: u64, j: u32, x: u64) -> u64
    requires { j < 64 }
    ensures { Kept r j x result }
{
    if x == 0 {
        return bits::flip(r, j);
    }
    r
}

// The rows of m whose target is f in the bits of `mask`.
fn alike(m: u64, f: u64, mask: u64, w: usize, grid: &[u64]) -> u64
    requires { Rows w m grid.now }
    ensures { Chosen (Like (target w grid.now) f mask) (Unlike (target w grid.now) f mask) m result }
{
    let mut r = 0;
    for j in Members(m) {
        r = keep(r, j, (cube_rows::target(grid, w, j as usize) ^ f) & mask);
    }
    r
}

// The row of `far` whose target is f itself, as a set. Where the door b is open there is none, since f stands behind it.
fn home_of(far: u64, f: u64, free: u64, shut: u64, b: u32, w: usize, grid: &[u64]) -> u64
    requires { Rows w far grid.now × (b < 64) }
    ensures { HomeOf (target w grid.now) far f free shut b result }
{
    if bits::bit(shut, b) {
        return alike(far, f, free, w, grid);
    }
    0
}

// A dimension in which the targets of the two lowest rows of m differ.
fn parting(m: u64, w: usize, grid: &[u64]) -> u32
    requires { Rows w m grid.now × (2 ≤ ones m) × ((i j : ℕ) → bb.bit i m ≡ 1 → bb.bit j m ≡ 1 → i ≢ j → target w grid.now i ≢ target w grid.now j) }
    ensures { Parting m (target w grid.now) result }
{
    let x = bits::lowest(m);
    let rest = bits::flip(m, x);
    let y = bits::lowest(rest);
    let t = cube_rows::target(grid, w, x as usize);
    bits::lowest(t ^ cube_rows::target(grid, w, y as usize))
}

// The doors that will not do, with that of x, if x is one door.
fn mark(taken: u64, x: u64) -> u64
    ensures { Marked taken x result }
{
    if bits::one_bit(x) {
        return taken | x;
    }
    taken
}

// A dimension of `rest`, not of `shut`, in which no target of the rows m neighbours f.
fn beside(rest: u64, f: u64, shut: u64, m: u64, w: usize, grid: &[u64]) -> u32
    requires { Rows w m grid.now × (ones shut + ones m < ones rest) }
    ensures { Beside rest f shut m (target w grid.now) result }
{
    let mut taken = shut;
    for j in Members(m) {
        taken = mark(taken, f ^ cube_rows::target(grid, w, j as usize));
    }
    bits::lowest(cube_rows::less(rest, taken))
}

// A relay beside f stands in for f, which is the target of the row of `home`, if there is one.
fn stand_in(rest: u64, f: u64, shut: u64, far: u64, home: u64, w: usize, grid: &mut [u64])
    requires { Rows w far grid.old × (ones shut + ones far ≤ ones rest) × ((j : ℕ) → bb.bit j home ≡ 1 → bb.bit j far ≡ 1) }
    ensures { StoodIn w rest f far home grid.old grid.new }
{
    if home == 0 {
        return;
    }
    let h = bits::lowest(home);
    let d = beside(rest, f, shut, bits::flip(far, h), w, grid);
    cube_rows::start(grid, w, h as usize, bits::flip(f, d));
}

// What is asked on the far side of the dimension b: its start, from f = s^b by the dimensions but b, the doors shut but b; its rows, and the one of f.
#[derive(Clone, Copy)]
pub struct Cut {
    pub b: u32,
    pub side: Start,
    pub far: u64,
    pub home: u64,
}

// Divides the rows m; the far rows then hold what is asked on the far side.
pub fn divide(start: Start, m: u64, w: usize, grid: &mut [u64]) -> Cut
    requires { Rows w m grid.old × (2 ≤ ones m) × Request start.free start.s start.shut m (target w grid.old) × Settled start.free start.s start.shut m (target w grid.old) × New w m grid.old }
    ensures { Divided start.free start.s start.shut m w grid.old result.b result.side.free result.side.s result.side.shut result.far result.home grid.new }
{
    let b = parting(m, w, grid);
    let rest = bits::flip(start.free, b);
    let f = bits::flip(start.s, b);
    let pow = bits::power(b);
    let low = cube_rows::less(start.shut, pow);
    let far = alike(m, f, pow, w, grid);
    let home = home_of(far, f, start.free, start.shut, b, w, grid);
    stand_in(rest, f, low, far, home, w, grid);
    let side = Start {
        free: rest,
        s: f,
        shut: low,
    };
    Cut { b, side, far, home }
}

// ---- the far paths are taken home

// The path of row h, f^i .., becomes s^i, f^i, f. Returns i, as a set.
fn bring_home(b: u32, f: u64, h: usize, w: usize, grid: &mut [u64]) -> u64
    requires { (b < 64) × (4 ≤ w) × (h * w + w ≤ length grid.old) × (length (hops w grid.old h) + 1 < w) × (0 < length (hops w grid.old h)) }
    ensures { Homes b f h w grid.old grid.new result }
{
    let v = cube_rows::first(grid, w, h);
    cube_rows::start(grid, w, h, f);
    cube_rows::push(grid, w, h, v);
    cube_rows::push(grid, w, h, bits::flip(v, b));
    v ^ f
}

// The path of row j, f^i .., becomes s^i, f^i, .. Returns i, as a set.
fn bring_one(b: u32, f: u64, j: usize, w: usize, grid: &mut [u64]) -> u64
    requires { (b < 64) × (j * w + w ≤ length grid.old) × (length (hops w grid.old j) + 1 < w) × (0 < length (hops w grid.old j)) }
    ensures { Turns b f j w grid.old grid.new result }
{
    let v = cube_rows::first(grid, w, j);
    cube_rows::push(grid, w, j, bits::flip(v, b));
    v ^ f
}

// The rows that are left, and the doors that are used.
#[derive(Clone, Copy)]
pub struct Taken {
    pub todo: u64,
    pub used: u64,
}

// The row of f; if there is none and the door b is open, one row goes straight over f.
fn bring_first(b: u32, f: u64, shut: u64, far: u64, home: u64, w: usize, grid: &mut [u64]) -> Taken
    requires { (b < 64) × (4 ≤ w) × Ready w far grid.old × (far ≢ 0) × ((j : ℕ) → bb.bit j home ≡ 1 → bb.bit j far ≡ 1) }
    ensures { Fetched b f shut far home w grid.old grid.new result.todo result.used }
{
    if home != 0 {
        let h = bits::lowest(home);
        let used = bring_home(b, f, h as usize, w, grid);
        return Taken {
            todo: bits::flip(far, h),
            used,
        };
    }
    if bits::bit(shut, b) {
        return Taken { todo: far, used: 0 };
    }
    let j = bits::lowest(far);
    cube_rows::push(grid, w, j as usize, f);
    Taken {
        todo: bits::flip(far, j),
        used: 0,
    }
}

// Takes the paths of the rows `far` home. Returns the doors that they use.
pub fn bring(b: u32, f: u64, shut: u64, far: u64, home: u64, w: usize, grid: &mut [u64]) -> u64
    requires { (b < 64) × (4 ≤ w) × Ready w far grid.old × (far ≢ 0) × ((j : ℕ) → bb.bit j home ≡ 1 → bb.bit j far ≡ 1) }
    ensures { Fetched b f shut far home w grid.old grid.new 0 result }
{
    let t = bring_first(b, f, shut, far, home, w, grid);
    let mut used = t.used;
    for j in Members(t.todo) {
        used |= bring_one(b, f, j as usize, w, grid);
    }
    used
}
