// A gate for a target.
#![tactic(auto)]

ghost use Rattle.std.specs.Prelude.{◌≡◌, ℕ, suc, ◌^◌, ◌<◌, ◌≤◌, get_or};
ghost use Rattle.bits.specs.Bit.{bit};
ghost use Rattle.two_math.specs.Gates.{Passes, cand};
ghost use Rattle.two_gate.specs.Says.{Tells, Denied, None, Small, Other, Search, Serves};

// Where a fan begins: the order of the mesh, the source's block, and its slot there.
#[derive(Clone, Copy)]
pub struct Home {
    pub order: u32,
    pub block: u64,
    pub slot: u32,
}

// The targets of a request: how many, and the block of each and its slot there.
#[derive(Clone, Copy)]
pub struct Targets {
    pub count: u32,
    pub blocks: [u64; 8],
    pub slots: [u32; 8],
}

// Which targets have a gate, and the gate slot of each that has.
#[derive(Clone, Copy)]
pub struct Gates {
    pub gated: u64,
    pub slots: [u32; 8],
}

// Whether the target at (bi, pi) denies the gate slot q of a target in block bj.
fn denies(s0: u64, bj: u64, q: u32, bi: u64, pi: u32, done: bool, qi: u32) -> bool
    requires { (q < 64) × (pi < 64) × (qi < 64) }
    ensures { Tells (Denied s0 bj q bi pi done qi) result }
{
    let g = bits::flip(bj, q);
    if g == bi {
        return true;
    }
    if (bi, q) == (bj, pi) {
        return true;
    }
    if (bi, g) == (s0, bits::flip(s0, pi)) {
        return true;
    }
    if done {
        return g == bits::flip(bi, qi);
    }
    false
}

// The candidate c: p comes last.
fn candidate(m: u32, p: u32, c: u32) -> u32
    requires { (m ≤ 5) × (p < 2 ^ m) × (c ≤ m) }
    ensures { result ≡ cand m p c }
{
    if c == m {
        return p;
    }
    p ^ (1 << c)
}

// Whether the target i denies the gate slot q of the target j.
fn denied_by(s0: u64, targets: &Targets, gates: &Gates, j: u32, q: u32, i: u32) -> bool
    requires { (i < 8) × (j < 8) × (q < 64) × Small targets.now.slots × Small gates.now.slots }
    ensures { Tells (Other s0 targets.now.blocks targets.now.slots gates.now.slots gates.now.gated j q i) result }
{
    if i == j {
        return false;
    }
    let a = i as usize;
    let b = j as usize;
    denies(
        s0,
        targets.blocks[b],
        q,
        targets.blocks[a],
        targets.slots[a],
        bits::bit(gates.gated, i),
        gates.slots[a],
    )
}

// Whether no target denies it.
fn passes(s0: u64, targets: &Targets, gates: &Gates, j: u32, q: u32) -> bool
    requires { (targets.now.count ≤ 8) × (j < 8) × (q < 64) × Small targets.now.slots × Small gates.now.slots }
    ensures { Tells (None (Other s0 targets.now.blocks targets.now.slots gates.now.slots gates.now.gated j q) targets.now.count) result }
{
    for i in 0..targets.count {
        if denied_by(s0, targets, gates, j, q, i) {
            return false;
        }
    }
    true
}

// A slot that serves as the gate of the target j.
pub fn gate_for(home: Home, targets: &Targets, gates: &Gates, j: u32) -> u32
    requires { Search home.order home.block targets.now.count targets.now.blocks targets.now.slots gates.now.gated gates.now.slots j }
    ensures { Serves home.order home.block targets.now.count targets.now.blocks targets.now.slots gates.now.gated gates.now.slots j result }
{
    let p = targets.slots[j as usize];
    for c in 0..=home.order {
        let q = candidate(home.order, p, c);
        if passes(home.block, targets, gates, j, q) {
            return q;
        }
    }
    p
}
