// Paths of the two-level mesh written into a slice, piece by piece. Inner: the planner meets each `requires`.
#![tactic(auto)]

ghost use Rattle.std.specs.Prelude.{◌≡◌, ℕ, suc, ◌+◌, ◌*◌, ◌^◌, ◌<◌, ◌≤◌, length};
ghost use Rattle.two_write.specs.Row.{hops};
ghost use Rattle.two_write.specs.Walked.{Room, Walked, Next};
ghost use Rattle.two_write.specs.Blocks.{Entered, Ways, Crossed, Exit};
ghost use Rattle.two_write.specs.Slots.{Below, Slotted};

// The slot after u on the way to q.
fn next(u: u64, q: u64) -> u64
    requires { u ≡ q → ⊥ }
    ensures { Next u q result }
{
    bits::flip(u, bits::lowest(u ^ q))
}

// Writes the relays of a walk from the slot p to the slot q, without the first, from the place `at` on, and returns the place after it.
pub fn write_walk(m: u32, base: u64, p: u64, q: u64, at: usize, out: &mut [u64]) -> usize
    requires { Room m base p q at (length out.old) }
    ensures { Walked m base p q at out.old out.new result }
{
    let mut here = p;
    // Stays: the loop ends at a slot, and only its end tells how many places that took.
    let mut i = at;
    while here != q {
        here = next(here, q);
        out[i] = base + here;
        i += 1;
    }
    i
}

// The number of the first relay of block b.
pub fn base(m: u32, b: u64) -> u64
    requires { (m ≤ 5) × (b < 2 ^ (2 ^ m)) }
    ensures { result ≡ b * 2 ^ m }
{
    b << m
}

// Writes the relays of block b from the slot p, where it is entered, to the slot q, and returns the place after them.
pub fn write_block(m: u32, b: u64, p: u64, q: u64, at: usize, out: &mut [u64]) -> usize
    requires { (m ≤ 5) × (b < 2 ^ (2 ^ m)) × (p < 2 ^ m) × (q < 2 ^ m) × (at + suc m ≤ length out.old) }
    ensures { Entered m b p q at out.old out.new result }
{
    let first = base(m, b);
    out[at] = first + p;
    write_walk(m, first, p, q, at + 1, out)
}

// The path of a row without its first: as many of the row's last places as its first place says.
pub fn row(grid: &[u64; 560], j: usize) -> &[u64]
    requires { (j < 16) × (length (hops grid.now j) < 34) }
    ensures { result.now ≡ hops grid.now j }
{
    let end = j * 35 + 35;
    let n = grid[j * 35] as usize;
    &grid[end - n..end]
}

// The slot by which block i of a path is left: the door to the next, or `last` in the last.
fn exit(blocks: &[u64], i: usize, last: u64) -> u64
    requires { (i < length blocks.now) × ((m s0 leave at size : ℕ) × Ways m s0 blocks.now leave last at size) }
    ensures { (m s0 leave at size : ℕ) → Ways m s0 blocks.now leave last at size → Exit m blocks.now last i result }
{
    if i + 1 == blocks.len() {
        return last;
    }
    u64::from(bits::lowest(blocks[i] ^ blocks[i + 1]))
}

// Writes the relays of the blocks of a path, which leaves the source's block by the slot `leave`, to the slot `last` of the last of them.
pub fn write_blocks(
    m: u32,
    blocks: &[u64],
    leave: u64,
    last: u64,
    at: usize,
    out: &mut [u64],
) -> usize
    requires { (s0 : ℕ) × Ways m s0 blocks.now leave last at (length out.old) }
    ensures { (s0 : ℕ) → Ways m s0 blocks.now leave last at (length out.old) → Crossed m s0 leave last blocks.now at out.old out.new result }
{
    let mut slot = leave;
    let mut next = at;
    for (i, block) in blocks.iter().enumerate() {
        let door = exit(blocks, i, last);
        next = write_block(m, *block, slot, door, next, out);
        slot = door;
    }
    next
}

// Writes the relays of slots of block b.
pub fn write_slots(m: u32, b: u64, slots: &[u64], at: usize, out: &mut [u64]) -> usize
    requires { (m ≤ 5) × (b < 2 ^ (2 ^ m)) × Below m (length slots.now) slots.now × (at + length slots.now ≤ length out.old) }
    ensures { Slotted m b slots.now at out.old out.new result }
{
    let first = base(m, b);
    for (i, slot) in slots.iter().enumerate() {
        out[at + i] = first + *slot;
    }
    at + slots.len()
}
