// The block path through the door p0, where it ends in a crowd: a target of that crowd takes it over. Inner: the planner meets each `requires`.
#![tactic(auto)]

ghost use Rattle.std.specs.Prelude.{◌≡◌, true, ◌⊎◌, ℕ, ◌^◌, ◌<◌, ◌≤◌, length, take};
ghost use Rattle.cube_math.specs.Masks.{at};
ghost use Rattle.two_gate.specs.Says.{Tells};
ghost use Rattle.two_write.specs.Walked.{Next};
ghost use Rattle.two_takeover.specs.Over.{Crowds, CrowdBy, LastAsk, Enters, Met};
ghost use Rattle.two_takeover.specs.Tail.{TailAsk, Tailed};
ghost use Rattle.two_takeover.specs.TakeOver.{OverAsk, Over};

use two_gate::{Gates, Home, Targets};

// A tail: the first `len` of these slots of a block.
#[derive(Clone, Copy)]
pub struct Tail {
    pub len: usize,
    pub slots: [u64; 8],
}

// Who takes the block path of a row over, by which slot it enters its last block, and its tail there.
#[derive(Clone, Copy)]
pub struct Taken {
    pub who: u32,
    pub row: usize,
    pub enter: u32,
    pub tail: Tail,
}

// The crowd whose block path begins with the block `front`.
fn crowd_by(reps: u64, front: u64, grid: &[u64; 560]) -> Option<u32>
    requires { Crowds reps grid.now }
    ensures { CrowdBy reps front grid.now result }
{
    let mut todo = reps;
    while todo != 0 {
        let r = bits::lowest(todo);
        if two_write::row(grid, 8 + r as usize)[0] == front {
            return Some(r);
        }
        todo = bits::flip(todo, r);
    }
    None
}

// Whether a target at (block, slot) is gated, stands in block b, and has its slot or its gate slot at x.
fn meets(block: u64, slot: u32, gate: u32, gated: bool, b: u64, x: u32) -> bool
    ensures { Tells ((gated ≡ true) × (block ≡ b) × ((x ≡ gate) ⊎ (x ≡ slot))) result }
{
    gated && block == b && (gate == x || slot == x)
}

// The gated target of block b whose slot or gate slot is x.
fn met(targets: &Targets, gates: &Gates, b: u64, x: u32) -> Option<u32>
    requires { targets.now.count < 8 }
    ensures { Met targets.now.count (at targets.now.blocks) (at targets.now.slots) (at gates.now.slots) gates.now.gated b x result }
{
    for i in 0..targets.count {
        let j = i as usize;
        if meets(
            targets.blocks[j],
            targets.slots[j],
            gates.slots[j],
            bits::bit(gates.gated, i),
            b,
            x,
        ) {
            return Some(i);
        }
    }
    None
}

// The slot after `here` on the way to `to`.
fn step(here: u32, to: u32) -> u32
    requires { (here < 32) × (to < 32) × (here ≡ to → ⊥) }
    ensures { Next here to result }
{
    here ^ (1 << bits::lowest(u64::from(here ^ to)))
}

// The slot by which the last block of a row is entered.
fn enter_by(home: Home, end: u64, grid: &[u64; 560], row: usize) -> u32
    requires { LastAsk home.order home.block home.slot end grid.now row }
    ensures { Enters home.order home.block end grid.now row result }
{
    let path = two_write::row(grid, row);
    let n = path.len();
    if n == 1 {
        return home.slot;
    }
    bits::lowest(path[n - 2] ^ path[n - 1])
}

// The walk from the slot `enter` of block b towards the slot `to`, up to the first gated target that it meets: who that is, and the slots.
fn tail_of(m: u32, targets: &Targets, gates: &Gates, b: u64, enter: u32, to: u32) -> (u32, Tail)
    requires { TailAsk m targets.now.count (at targets.now.blocks) (at targets.now.slots) (at gates.now.slots) gates.now.gated b enter to }
    ensures { Tailed m targets.now.count (at targets.now.blocks) (at targets.now.slots) (at gates.now.slots) gates.now.gated b enter result.0 (take result.1.len result.1.slots) × (result.1.len ≤ 7) × (length result.1.slots ≡ 8) }
{
    let mut slots = [0u64; 8];
    slots[0] = u64::from(enter);
    // Stays: the loop ends where a target is met, and only its end tells how many slots that took.
    let mut len = 1;
    let mut here = enter;
    loop {
        if let Some(who) = met(targets, gates, b, here) {
            let slot = targets.slots[who as usize];
            if slot == here {
                return (who, Tail { len, slots });
            }
            slots[len] = u64::from(slot);
            return (
                who,
                Tail {
                    len: len + 1,
                    slots,
                },
            );
        }
        here = step(here, to);
        slots[len] = u64::from(here);
        len += 1;
    }
}

// Who takes the block path through the source's slot over, if that path ends in a crowd.
pub fn take_over(
    home: Home,
    targets: &Targets,
    gates: &Gates,
    reps: u64,
    grid: &[u64; 560],
) -> Option<Taken>
    requires { OverAsk home.order home.block home.slot targets.now.count targets.now.blocks targets.now.slots gates.now.slots gates.now.gated reps grid.now }
    ensures { Over home.order home.block home.slot targets.now.count targets.now.blocks targets.now.slots gates.now.slots gates.now.gated reps grid.now result }
{
    let front = bits::flip(home.block, home.slot);
    let r = crowd_by(reps, front, grid)?;
    let row = 8 + r as usize;
    let b = targets.blocks[r as usize];
    let to = targets.slots[r as usize];
    let enter = enter_by(home, b, grid, row);
    let (who, tail) = tail_of(home.order, targets, gates, b, enter, to);
    Some(Taken {
        who,
        row,
        enter,
        tail,
    })
}
