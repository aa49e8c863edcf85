// The two-level planner for orders 2 to 5: choices, block paths, heads, and the paths written. Inner: the planner meets each `requires`.
#![tactic(auto)]

ghost use Rattle.std.specs.Prelude.{◌≡◌, true, List, Option, ℕ, ◌+◌, ◌-◌, ◌*◌, ◌^◌, ◌<◌, ◌≤◌, ◌≢◌, length, take};
ghost use Rattle.cube_math.specs.Masks.{at};
ghost use Rattle.two_write.specs.Row.{hops};
ghost use Rattle.two_gate.specs.Says.{Tells};
ghost use Rattle.two_takeover.specs.declared.Taken as taken;
ghost use Rattle.two_general.specs.Draft.{State, Inside, AllInside, Leaves, who_of};
ghost use Rattle.two_general.specs.Legs as legs;
ghost use Rattle.two_general.specs.Path.{head_if, PathAsk, Wrote};
ghost use Rattle.two_write.specs.Rows.{Drawing, Drawn};
ghost use Rattle.cube_math.specs.Choose.{Chosen};
ghost use Rattle.two_general.specs.Filled.{Filled};
ghost use Rattle.two_math.specs.Assemble.{most};
ghost use Rattle.two_general.specs.Whole.{Painted};
ghost use Rattle.two_general.specs.Draws.{Draws};
ghost use Rattle.two_general.specs.General.{General};
ghost use Rattle.two_parts.specs.Two.{two, block_of, slot_of};
ghost use Rattle.two_general.specs.Paths.{Held, Inner, Put, Pathed, Writes};

use two_choose::Choice;
use two_gate::{Home, Targets};
use two_parts::Order;
use two_takeover::{Tail, Taken};

// Whether j takes a block path over.
fn takes(taken: &Option<Taken>, j: u32) -> bool
    requires { j < 8 }
    ensures { Tells (j ≡ who_of taken.now) result }
{
    match taken {
        Some(taken) => taken.who == j,
        None => false,
    }
}

// The slot by which the path of j leaves the source's block.
fn leave_of(
    home: Home,
    targets: &Targets,
    choice: &Choice,
    taken: &Option<Taken>,
    ways: &[u64; 560],
    j: u32,
) -> u32
    requires { Inside home.block home.slot targets.now.slots choice.now taken.now ways.now j }
    ensures { Leaves home.block home.slot targets.now.slots choice.now taken.now ways.now j result }
{
    if takes(taken, j) {
        return home.slot;
    }
    if bits::bit(choice.inner, j) {
        return targets.slots[j as usize];
    }
    if bits::bit(choice.straight, j) {
        return choice.gates.slots[j as usize];
    }
    bits::lowest(home.block ^ two_write::row(ways, j as usize)[0])
}

// The tail through a gate: its slot, and the target's if that is another.
fn gate_tail(gate: u32, slot: u32) -> Tail
    ensures { legs.GateTail gate slot result.len result.slots }
{
    let mut slots = [0u64; 8];
    slots[0] = u64::from(gate);
    slots[1] = u64::from(slot);
    if gate == slot {
        return Tail { len: 1, slots };
    }
    Tail { len: 2, slots }
}

// What a path is made of after its head: blocks, to the slot `last` of the last of them; and a tail of slots of the target's block.
#[derive(Clone, Copy)]
struct Leg<'a> {
    blocks: &'a [u64],
    last: u32,
    tail: Tail,
}

// The rest of the path of j, which takes no block path over.
fn own_leg<'a>(targets: &Targets, choice: &Choice, ways: &'a [u64; 560], j: u32) -> Leg<'a>
    requires { (s0 p0 : ℕ) × (o : Option taken.Taken) × (j ≢ who_of o) × Inside s0 p0 targets.now.slots choice.now o ways.now j }
    ensures { (m s0 p0 k leave : ℕ) (blocks : List ℕ) (o : Option taken.Taken) → j ≢ who_of o → j < k → State m s0 p0 k blocks targets.now.slots choice.now o ways.now → Leaves s0 p0 targets.now.slots choice.now o ways.now j leave → legs.Leg m s0 p0 k blocks targets.now.slots choice.now o ways.now j leave result.blocks.now result.last result.tail.len result.tail.slots }
{
    let i = j as usize;
    let slot = targets.slots[i];
    let none = Tail {
        len: 0,
        slots: [0u64; 8],
    };
    if bits::bit(choice.inner, j) {
        return Leg {
            blocks: &ways[..0],
            last: slot,
            tail: none,
        };
    }
    let gate = choice.gates.slots[i];
    let through = gate_tail(gate, slot);
    if bits::bit(choice.straight, j) {
        return Leg {
            blocks: &ways[..0],
            last: gate,
            tail: through,
        };
    }
    let blocks = two_write::row(ways, i);
    if bits::bit(choice.gates.gated, j) {
        return Leg {
            blocks,
            last: gate,
            tail: through,
        };
    }
    Leg {
        blocks,
        last: slot,
        tail: none,
    }
}

// The rest of the path of j.
fn leg_of<'a>(
    targets: &Targets,
    choice: &Choice,
    taken: &Option<Taken>,
    ways: &'a [u64; 560],
    j: u32,
) -> Leg<'a>
    requires { (s0 p0 : ℕ) × Inside s0 p0 targets.now.slots choice.now taken.now ways.now j }
    ensures { (m s0 p0 k leave : ℕ) (blocks : List ℕ) → j < k → State m s0 p0 k blocks targets.now.slots choice.now taken.now ways.now → Leaves s0 p0 targets.now.slots choice.now taken.now ways.now j leave → legs.Leg m s0 p0 k blocks targets.now.slots choice.now taken.now ways.now j leave result.blocks.now result.last result.tail.len result.tail.slots }
{
    match taken {
        Some(taken) if taken.who == j => {
            let path = two_write::row(ways, taken.row);
            Leg {
                blocks: &path[..path.len() - 1],
                last: taken.enter,
                tail: taken.tail,
            }
        },
        _ => own_leg(targets, choice, ways, j),
    }
}

// The head of a path, if it walks in the source's block.
fn head_of(heads: &[u64; 560], j: usize, walks: bool) -> &[u64]
    requires { (j < 16) × (walks ≡ true → length (hops heads.now j) < 34) }
    ensures { result.now ≡ head_if walks (hops heads.now j) }
{
    if walks {
        return two_write::row(heads, j);
    }
    &heads[..0]
}

// Writes a path to a target in block b, from the place `at` on, and returns its hops.
fn write_path(
    home: Home,
    b: u64,
    source: u64,
    head: &[u64],
    leave: u32,
    leg: &Leg,
    at: usize,
    out: &mut [u64],
) -> u64
    requires { PathAsk home.order home.block b head.now leave leg.now.blocks.now leg.now.last leg.now.tail.len leg.now.tail.slots at (length out.old) }
    ensures { Wrote home.order home.block b source head.now leg.now.blocks.now leave leg.now.last (take leg.now.tail.len leg.now.tail.slots) at out.old out.new result }
{
    let m = home.order;
    let tail = &leg.tail;
    out[at] = source;
    let p = two_write::write_slots(m, home.block, head, at + 1, out);
    let q = two_write::write_blocks(m, leg.blocks, leave as u64, leg.last as u64, p, out);
    let r = two_write::write_slots(m, b, &tail.slots[..tail.len], q, out);
    (r - at - 1) as u64
}

// ---- the targets, taken apart

// The slot of a relay, as a bit's place.
fn slot_of(order: Order, relay: u64) -> u32
    requires { order.0 ≤ 5 }
    ensures { result ≡ slot_of order.0 relay }
{
    two_parts::slot_of(order, relay).0 as u32
}

// The block and the slot of each target.
fn taken_apart(order: Order, targets: &[u64]) -> Targets
    requires { (order.0 ≤ 5) × (length targets.now ≤ 8) }
    ensures count { result.count ≡ length targets.now }
    ensures blocks { Filled 8 (length targets.now) (λ j v. v ≡ block_of order.0 (at targets.now j)) result.blocks }
    ensures slots { Filled 8 (length targets.now) (λ j v. v ≡ slot_of order.0 (at targets.now j)) result.slots }
{
    let mut blocks = [0u64; 8];
    let mut slots = [0u32; 8];
    for (i, target) in targets.iter().enumerate() {
        blocks[i] = two_parts::block_of(order, *target).0;
        slots[i] = slot_of(order, *target);
    }
    Targets {
        count: targets.len() as u32,
        blocks,
        slots,
    }
}

// ---- all paths

// The slots by which the paths leave the source's block.
fn leaves_of(
    home: Home,
    targets: &Targets,
    choice: &Choice,
    taken: &Option<Taken>,
    ways: &[u64; 560],
) -> [u64; 16]
    requires { AllInside home.block home.slot targets.now.count targets.now.slots choice.now taken.now ways.now }
    ensures { Filled 16 targets.now.count (Leaves home.block home.slot targets.now.slots choice.now taken.now ways.now) result }
{
    let mut leaves = [0u64; 16];
    for j in 0..targets.count {
        leaves[j as usize] = u64::from(leave_of(home, targets, choice, taken, ways, j));
    }
    leaves
}

// The targets whose paths leave by another slot than the source's.
fn walkers_of(leaves: &[u64; 16], p0: u32, k: u32) -> u64
    requires { k ≤ 8 }
    ensures { Chosen (λ j. at leaves.now j ≢ p0) (λ j. at leaves.now j ≡ p0) (2 ^ k - 1) result }
{
    two_choose::indices(k, |j| leaves[j as usize] != u64::from(p0))
}

// All that is chosen before a path is written: from where, to where, the choices, who takes a block path over, and by which slot each path leaves.
#[derive(Clone, Copy)]
struct Draft {
    home: Home,
    source: u64,
    targets: Targets,
    choice: Choice,
    taken: Option<Taken>,
    leaves: [u64; 16],
}

// Writes the path of j from the place `at` on, and returns its hops.
fn put_path(
    draft: &Draft,
    ways: &[u64; 560],
    heads: &[u64; 560],
    j: u32,
    at: usize,
    out: &mut [u64],
) -> u64
    requires { (at + (most draft.now.home.order + 1) ≤ length out.old) × Inner draft.now.home.order draft.now.home.block draft.now.home.slot draft.now.targets.blocks draft.now.targets.slots draft.now.choice draft.now.taken ways.now draft.now.leaves heads.now j }
    ensures { (k : ℕ) → j < k → Held draft.now.home.order draft.now.home.block draft.now.home.slot k draft.now.targets.blocks draft.now.targets.slots draft.now.choice draft.now.taken ways.now draft.now.leaves heads.now → Put draft.now.home.order draft.now.home.block draft.now.home.slot k draft.now.targets.blocks draft.now.targets.slots draft.now.choice draft.now.taken ways.now draft.now.leaves heads.now draft.now.source j at out.old out.new result }
{
    let i = j as usize;
    let leg = leg_of(&draft.targets, &draft.choice, &draft.taken, ways, j);
    let leave = draft.leaves[i];
    let walks = leave != draft.home.slot as u64;
    let head = head_of(heads, i, walks);
    write_path(
        draft.home,
        draft.targets.blocks[i],
        draft.source,
        head,
        leave as u32,
        &leg,
        at,
        out,
    )
}

// Writes the paths of all targets, w places each, and their hops.
fn write_paths(
    draft: &Draft,
    ways: &[u64; 560],
    heads: &[u64; 560],
    w: usize,
    places: &mut [u64],
    counts: &mut [u64],
)
    requires { Writes draft.now.home.order draft.now.home.block draft.now.home.slot draft.now.targets.count w draft.now.targets.blocks draft.now.targets.slots draft.now.choice draft.now.taken ways.now draft.now.leaves heads.now places.old counts.old }
    ensures { Drawing w draft.now.source draft.now.targets.count (Pathed draft.now.home.order draft.now.home.block draft.now.home.slot draft.now.targets.count draft.now.targets.blocks draft.now.targets.slots draft.now.choice draft.now.taken ways.now draft.now.leaves heads.now) places.old counts.old places.new counts.new draft.now.targets.count }
{
    for j in 0..draft.targets.count {
        let i = j as usize;
        counts[i] = put_path(draft, ways, heads, j, i * w, places);
    }
}

// The mask of n dimensions.
// Stays: `cube_split` has the same for itself, and to lend it from there would be no plainer than this one line.
fn dimensions(n: u32) -> u64
    requires { n < 64 }
    ensures { result ≡ 2 ^ n - 1 }
{
    bits::power(n) - 1
}

// The mask of a block's bits: one for each slot.
fn block_bits(m: u32) -> u64
    requires { m ≤ 5 }
    ensures { result ≡ 2 ^ (2 ^ m) - 1 }
{
    dimensions(1 << m)
}

// Chooses, plans the block paths and the heads, and writes the paths of the targets.
fn draw(home: Home, source: u64, targets: Targets, w: usize, places: &mut [u64], counts: &mut [u64])
    requires { Draws home.order home.block home.slot targets.count w targets.blocks targets.slots places.old counts.old }
    ensures { Painted home.order home.block home.slot targets.count w source targets.blocks targets.slots places.old counts.old places.new counts.new }
{
    let choice = two_choose::choose(home, &targets);
    let mut ways = [0u64; 560];
    two_rows::plan_rows(
        block_bits(home.order),
        home.block,
        choice.shut,
        choice.rows,
        &choice.ends,
        &mut ways,
    );
    let taken = two_takeover::take_over(home, &targets, &choice.gates, choice.reps, &ways);
    let leaves = leaves_of(home, &targets, &choice, &taken, &ways);
    let walkers = walkers_of(&leaves, home.slot, targets.count);
    let mut heads = [0u64; 560];
    two_rows::plan_rows(
        dimensions(home.order),
        u64::from(home.slot),
        0,
        walkers,
        &leaves,
        &mut heads,
    );
    let draft = Draft {
        home,
        source,
        targets,
        choice,
        taken,
        leaves,
    };
    write_paths(&draft, &ways, &heads, w, places, counts);
}

// Plans a request of order 2 to 5: fewer targets than links, or one of them outside the source's block. Its two grids are in no other call's stack: it is kept a function of its own.
#[inline(never)]
pub fn general(
    m: u32,
    source: u64,
    targets: &[u64],
    w: usize,
    places: &mut [u64],
    counts: &mut [u64],
)
    requires { General m source w targets.now places.old counts.old }
    ensures { Drawn (two m) source targets.now places.old counts.old places.new counts.new }
{
    let order = Order(m as u64);
    let home = Home {
        order: m,
        block: two_parts::block_of(order, source).0,
        slot: slot_of(order, source),
    };
    draw(home, source, taken_apart(order, targets), w, places, counts);
}
