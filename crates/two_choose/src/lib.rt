// Which targets stand where, as masks: the choices of the two-level planner. Inner: the planner meets each `requires`.
#![tactic(auto)]

ghost use Rattle.std.specs.Prelude.{◌≡◌, true, false, ℕ, ◌-◌, ◌^◌, ◌<◌, ◌≤◌};
ghost use Rattle.bits.specs.Bit.{bit};
ghost use Rattle.cube_math.specs.Choose.{Chosen, Used};
ghost use Rattle.two_math.specs.Sort.{Behind, Shared, Classes};
ghost use Rattle.two_choose.specs.Masks.{Equals, added, Few};
ghost use Rattle.cube_math.specs.Masks.{at, less};
ghost use Rattle.two_math.specs.Shut.{Opening};
ghost use Rattle.two_choose.specs.Choice.{IsGated, Gated, Hidden, GateAsk, GateAll};
ghost use Rattle.two_choose.specs.Doors.{Blocked, Ended, end_of, DoorAsk, NextDoor};
ghost use Rattle.two_choose.specs.Chosen.{Asks, Chose};
ghost use Rattle.two_gate.specs.Says.{Tells, Small};

use two_gate::{Gates, Home, Targets};

// What is chosen for the targets: the inner ones, the gated ones with their gate slots, those of them whose gate block is the source's, those with a
// block path of their own, one of each crowd; the rows of the block paths with their ends; and the doors that stay shut.
#[derive(Clone, Copy)]
pub struct Choice {
    pub inner: u64,
    pub gates: Gates,
    pub straight: u64,
    pub singles: u64,
    pub reps: u64,
    pub rows: u64,
    pub shut: u64,
    pub ends: [u64; 16],
}

// The set with j, if `yes`.
fn add_if(set: u64, j: u32, yes: bool) -> u64
    requires { j < 64 }
    ensures { result ≡ added set j yes }
{
    if yes { set | bits::power(j) } else { set }
}

// The indices below k for which the test holds.
pub fn indices<F: Fn(u32) -> bool>(k: u32, test: F) -> u64
    requires few { k ≤ 64 }
    requires callable { (j : ℕ) → j < k → F.pre test j }
    ensures { Chosen (λ j. F.post test j true) (λ j. F.post test j false) (2 ^ k - 1) result }
{
    let mut found = 0;
    for j in 0..k {
        found = add_if(found, j, test(j));
    }
    found
}

// The indices below k whose value is v.
fn equals(vals: &[u64; 8], v: u64, k: u32) -> u64
    requires { k ≤ 8 }
    ensures { Equals vals.now v k result }
{
    indices(k, |j| vals[j as usize] == v)
}

// The values of the members of the set.
fn values(vals: &[u32; 8], set: u64) -> u64
    requires { Few set × Small vals.now }
    ensures { Used (λ j a. at vals.now j ≡ a) set result }
{
    // Stays: no index is counted here or in the other loops over a mask's members, which take its lowest bit until none is left.
    let mut todo = set;
    let mut r: u64 = 0;
    while todo != 0 {
        let j = bits::lowest(todo);
        r |= bits::power(vals[j as usize]);
        todo = bits::flip(todo, j);
    }
    r
}

// Whether block b is behind a door of the set.
fn behind(s0: u64, doors: u64, b: u64) -> bool
    ensures { Tells (Behind s0 doors b) result }
{
    let x = s0 ^ b;
    if bits::one_bit(x) {
        return bits::bit(doors, bits::lowest(x));
    }
    false
}

// Whether another target stands in the block of j.
fn shared(targets: &Targets, j: u32) -> bool
    requires { (targets.now.count ≤ 8) × (j < targets.now.count) }
    ensures { Tells (Shared targets.now.count (at targets.now.blocks) j) result }
{
    let same = equals(&targets.blocks, targets.blocks[j as usize], targets.count);
    bits::flip(same, j) != 0
}

// The first of the set in each block.
fn firsts(blocks: &[u64; 8], set: u64) -> u64
    requires { Few set }
    ensures { Classes (at blocks.now) set result }
{
    let mut todo = set;
    let mut r: u64 = 0;
    while todo != 0 {
        let j = bits::lowest(todo);
        let same = equals(blocks, blocks[j as usize], 8);
        r = add_if(r, j, r & same == 0);
        todo = bits::flip(todo, j);
    }
    r
}

// Whether the target j needs a gate: it is outside the source's block, and its block holds another target or is behind a kept door.
fn is_gated(s0: u64, targets: &Targets, kept: u64, j: u32) -> bool
    requires { (targets.now.count ≤ 8) × (j < targets.now.count) }
    ensures { Tells (IsGated s0 targets.now.count (at targets.now.blocks) kept j) result }
{
    let b = targets.blocks[j as usize];
    if b == s0 {
        return false;
    }
    if shared(targets, j) {
        return true;
    }
    behind(s0, kept, b)
}

// The targets that need a gate.
fn gated_of(s0: u64, targets: &Targets, kept: u64) -> u64
    requires { targets.now.count ≤ 8 }
    ensures { Gated s0 targets.now.count (at targets.now.blocks) kept targets.now.count result }
{
    indices(targets.count, |j| is_gated(s0, targets, kept, j))
}

// The targets whose block is behind a door of the set.
fn hidden(s0: u64, targets: &Targets, doors: u64) -> u64
    requires { targets.now.count ≤ 8 }
    ensures { Hidden s0 (at targets.now.blocks) doors targets.now.count result }
{
    indices(
        targets.count,
        |j| behind(s0, doors, targets.blocks[j as usize]),
    )
}

// A gate slot for each gated target.
fn gates_of(home: Home, targets: &Targets, gated: u64) -> Gates
    requires { GateAsk home.order home.block targets.now.count targets.now.blocks targets.now.slots gated }
    ensures gates { GateAll home.order home.block targets.now.count targets.now.blocks targets.now.slots gated result.slots }
    ensures gated { result.gated ≡ gated }
{
    let mut done = Gates {
        gated: 0,
        slots: [0u32; 8],
    };
    let mut todo = gated;
    while todo != 0 {
        let j = bits::lowest(todo);
        done.slots[j as usize] = two_gate::gate_for(home, targets, &done, j);
        done.gated |= bits::power(j);
        todo = bits::flip(todo, j);
    }
    Gates {
        gated,
        slots: done.slots,
    }
}

// The block behind each gate.
fn gate_blocks(blocks: &[u64; 8], gates: &[u32; 8]) -> [u64; 8]
    requires { Small gates.now }
    ensures { Blocked blocks.now gates.now 8 result }
{
    let mut r = [0u64; 8];
    for j in 0..8 {
        r[j] = bits::flip(blocks[j], gates[j]);
    }
    r
}

// Where the block path of each row ends: at its target's block or gate block, and that of 8 + j at the crowd of j.
fn ends_of(blocks: &[u64; 8], behind: &[u64; 8], gated: u64) -> [u64; 16]
    ensures { Ended blocks.now behind.now gated 8 result }
{
    let mut r = [0u64; 16];
    for j in 0..8 {
        r[j] = end_of(blocks[j], behind[j], bits::bit(gated, j as u32));
        r[8 + j] = blocks[j];
    }
    r
}

fn end_of(block: u64, behind: u64, gated: bool) -> u64
    ensures { result ≡ end_of block behind gated }
{
    if gated { behind } else { block }
}

// The doors that stay shut where n are opened, none that is kept, and p0 first unless it is.
fn shut_doors(doors: u32, p0: u32, keep: u64, n: u32) -> u64
    requires { DoorAsk doors p0 keep n }
    ensures { Opening doors p0 keep n result }
{
    let mut shut = bits::power(doors) - 1;
    for i in 0..n {
        shut = bits::flip(shut, next_door(p0, keep, shut, i));
    }
    shut
}

// The next door to open.
fn next_door(p0: u32, keep: u64, shut: u64, i: u32) -> u32
    requires { (p0 < 64) × (less shut keep ≡ 0 → ⊥) }
    ensures { NextDoor p0 keep shut i result }
{
    let free = bits::lowest(cube_rows::less(shut, keep));
    if i != 0 {
        return free;
    }
    if bits::bit(keep, p0) {
        return free;
    }
    p0
}

// The choices for the targets.
pub fn choose(home: Home, targets: &Targets) -> Choice
    requires { Asks home.order home.block home.slot targets.now.count targets.now.blocks targets.now.slots }
    ensures { Chose home.order home.block home.slot targets.now.count targets.now.blocks targets.now.slots result.inner result.gates.gated result.straight result.singles result.reps result.rows result.shut result.gates.slots result.ends }
{
    let s0 = home.block;
    let k = targets.count;
    let blocks = targets.blocks;
    let inner = equals(&blocks, s0, k);
    let kept = values(&targets.slots, inner);
    let gated = gated_of(s0, targets, kept);
    let gates = gates_of(home, targets, gated);
    let behind = gate_blocks(&blocks, &gates.slots);
    let straight = gated & equals(&behind, s0, k);
    let keep = kept | values(&gates.slots, straight);
    let reps = firsts(&blocks, cube_rows::less(gated, hidden(s0, targets, keep)));
    let crowds = values(&[8u32, 9, 10, 11, 12, 13, 14, 15], reps);
    let singles = cube_rows::less(cube_rows::less(bits::power(k) - 1, inner), straight);
    let rows = singles | crowds;
    let ends = ends_of(&blocks, &behind, gated);
    let shut = shut_doors(1 << home.order, home.slot, keep, rows.count_ones());
    Choice {
        inner,
        gates,
        straight,
        singles,
        reps,
        rows,
        shut,
        ends,
    }
}
