// The round trip: as many targets as a relay has links, all in the source's block. All but one are reached inside the block, the last by
// the blocks around it. Inner: the planner meets each `requires`.
#![tactic(auto)]

ghost use Rattle.std.specs.Prelude.{◌≡◌, List, ℕ, ◌+◌, ◌*◌, ◌^◌, ◌<◌, ◌≤◌, length};
ghost use Rattle.two_write.specs.Row.{hops};
ghost use Rattle.two_parts.specs.Two.{two};
ghost use Rattle.two_write.specs.Rows.{Drawn};
ghost use Rattle.two_round.specs.Around.{Rounded};
ghost use Rattle.two_round.specs.Found.{Stands, Found, row_of, hops_of};
ghost use Rattle.two_round.specs.Trip.{Trip, Slots, Course};
ghost use Rattle.two_round.specs.Paths.{Part, Written};

use two_parts::Order;

// So many hops along the path of a row.
#[derive(Clone, Copy)]
pub struct Cut {
    pub row: usize,
    pub hops: usize,
}

// What is settled before the paths are written: the order, the source, its block and its slot; the places of a path; the slots of the targets; and
// where the last target stands on the path of another.
#[derive(Clone, Copy)]
struct Round {
    order: u32,
    source: u64,
    block: u64,
    slot: u64,
    width: usize,
    to: [u64; 16],
    cut: Option<Cut>,
}

// The slots of the targets.
fn slots_of(order: Order, targets: &[u64]) -> [u64; 16]
    requires { (order.0 ≤ 5) × (length targets.now ≤ 16) }
    ensures { Slots order.0 targets.now result }
{
    let mut to = [0u64; 16];
    for (i, target) in targets.iter().enumerate() {
        to[i] = two_parts::slot_of(order, *target).0;
    }
    to
}

// Where a path stands on the slot x.
fn place_of(path: &[u64], x: u64) -> Option<usize>
    ensures { Stands path.now x result }
{
    path.iter().position(|slot| *slot == x)
}

// Where the paths of the first m rows stand on the slot x.
fn find(grid: &[u64; 560], m: usize, x: u64) -> Option<Cut>
    requires { (m ≤ 5) × ((j : ℕ) → j < m → length (hops grid.now j) < 34) }
    ensures { Found m grid.now x (row_of m result) (hops_of result) }
{
    for y in 0..m {
        if let Some(i) = place_of(two_write::row(grid, y), x) {
            return Some(Cut {
                row: y,
                hops: i + 1,
            });
        }
    }
    None
}

// Which path goes around: that of the row that is cut, or else the last.
fn around(m: usize, cut: Option<Cut>) -> usize
    ensures { result ≡ row_of m cut }
{
    match cut {
        Some(cut) => cut.row,
        None => m,
    }
}

// The slots of path j, which stays in the block: the last is the cut of a row, any other its own row.
fn part_of(grid: &[u64; 560], m: usize, cut: Option<Cut>, j: usize) -> &[u64]
    requires { (j ≤ m) × (j ≡ row_of m cut → ⊥) × ((s0 p0 w : ℕ) × (to : List ℕ) × Course m s0 p0 w to (row_of m cut) (hops_of cut) grid.now) }
    ensures { Part m (row_of m cut) (hops_of cut) grid.now j result.now }
{
    match cut {
        Some(cut) if j == m => &two_write::row(grid, cut.row)[..cut.hops],
        _ => two_write::row(grid, j),
    }
}

// Writes the path to the slot a of the source's block by way of the blocks behind its own slot, behind both, and behind a; returns its hops.
fn write_round(round: &Round, a: u64, at: usize, out: &mut [u64]) -> u64
    requires { (round.now.order ≤ 5) × (round.now.block < 2 ^ (2 ^ round.now.order)) × (round.now.slot < 2 ^ round.now.order) × (a < 2 ^ round.now.order) × (at + (3 * round.now.order + 5) ≤ length out.old) }
    ensures { Rounded round.now.order round.now.source round.now.block round.now.slot a at out.old out.new result }
{
    let m = round.order;
    let s0 = round.block;
    let p0 = round.slot;
    let x = bits::flip(s0, p0 as u32);
    let y = bits::flip(x, a as u32);
    let z = bits::flip(s0, a as u32);
    out[at] = round.source;
    let p = two_write::write_block(m, x, p0, a, at + 1, out);
    let q = two_write::write_block(m, y, a, p0, p, out);
    let r = two_write::write_block(m, z, p0, a, q, out);
    out[r] = two_write::base(m, s0) + a;
    (r - at) as u64
}

// Writes path j.
fn write_path(round: &Round, grid: &[u64; 560], j: usize, places: &mut [u64], counts: &mut [u64])
    requires { Course round.now.order round.now.block round.now.slot round.now.width round.now.to (row_of round.now.order round.now.cut) (hops_of round.now.cut) grid.now × (j ≤ round.now.order) × (j * round.now.width + round.now.width ≤ length places.old) × (j < length counts.old) }
    ensures { Written round.now.order round.now.source round.now.block round.now.slot round.now.width round.now.to (row_of round.now.order round.now.cut) (hops_of round.now.cut) grid.now j places.old counts.old places.new counts.new }
{
    let m = round.order as usize;
    let at = j * round.width;
    if j == around(m, round.cut) {
        counts[j] = write_round(round, round.to[j], at, places);
        return;
    }
    let part = part_of(grid, m, round.cut, j);
    places[at] = round.source;
    two_write::write_slots(round.order, round.block, part, at + 1, places);
    counts[j] = part.len() as u64;
}

// Writes a fan to the targets, m + 1 in the source's block; a path takes w places. To 1, 2 and 3 from 0 in order 2, 3 goes around:
// 0, 4, 5, 7, 39, 38, 36, 32, 33, 35, 3. Its grid is in no other call's stack: it is kept a function of its own.
#[inline(never)]
pub fn plan(m: u32, source: u64, targets: &[u64], w: usize, places: &mut [u64], counts: &mut [u64])
    requires { Trip m source w targets.now places.old counts.old }
    ensures { Drawn (two m) source targets.now places.old counts.old places.new counts.new }
{
    let order = Order(m as u64);
    let s0 = two_parts::block_of(order, source).0;
    let p0 = two_parts::slot_of(order, source).0;
    let to = slots_of(order, targets);
    let size = bits::power(m);
    let mut grid = [0u64; 560];
    two_rows::plan_rows(size - 1, p0, 0, size - 1, &to, &mut grid);
    let cut = find(&grid, m as usize, to[m as usize]);
    let round = Round {
        order: m,
        source,
        block: s0,
        slot: p0,
        width: w,
        to,
        cut,
    };
    for j in 0..targets.len() {
        write_path(&round, &grid, j, places, counts);
    }
}
