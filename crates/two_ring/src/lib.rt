// The planner of order 1, a ring of eight relays: right to the nearer target, left to the other. Inner: the planner meets each `requires`.
#![tactic(auto)]

ghost use Rattle.std.specs.Prelude.{◌≡◌, ◌+◌, ◌*◌, ◌<◌, ◌≤◌, length};
ghost use Rattle.std.proofs.lemmas.List.Edits.{sets};
ghost use Rattle.two_parts.specs.Two.{two};
ghost use Rattle.two_write.specs.Rows.{Ready, Drawn};
ghost use Rattle.two_ring.specs.Way.{relay_at, spot_of, far_of, step_of, hops_of, line};
ghost use Rattle.two_ring.specs.Sides.{Side};

// The relay at each place of the ring, and the place of each relay.
const RING: [u64; 8] = [0, 1, 5, 4, 6, 7, 3, 2];

const SPOT: [u64; 8] = [0, 1, 7, 6, 3, 2, 4, 5];

// The relay at a place of the ring, which begins anew after eight: `relay(10)` is 5.
fn relay(place: u64) -> u64
    ensures { result ≡ relay_at place }
{
    RING[(place % 8) as usize]
}

// The place of a relay on the ring: `spot(5)` is 2.
fn spot(relay: u64) -> u64
    requires { relay < 8 }
    ensures { result ≡ spot_of relay }
{
    SPOT[relay as usize]
}

// How far right of the source the target is: `far(0, 4)` is 3.
fn far(source: u64, target: u64) -> u64
    requires { (source < 8) × (target < 8) }
    ensures { result ≡ far_of source target }
{
    (spot(target) + 8 - spot(source)) % 8
}

// Places from one relay of a way to the next: seven to the right are one to the left.
fn step(right: bool) -> u64
    ensures { result ≡ step_of right }
{
    if right { 1 } else { 7 }
}

// The hops of the way from the source to the target, right or left.
fn hops(source: u64, target: u64, right: bool) -> u64
    requires { (source < 8) × (target < 8) }
    ensures { result ≡ hops_of right source target }
{
    let n = far(source, target);
    if right { n } else { 8 - n }
}

// Writes n + 1 relays of the ring from the place `spot` on, `step` places on each time.
fn write(spot: u64, step: u64, n: usize, at: usize, out: &mut [u64])
    requires { (spot < 8) × (step ≤ 7) × (n ≤ 8) × (at + n < length out.old) }
    ensures { out.new ≡ sets out.old at (line spot step (n + 1)) }
{
    let mut here = spot;
    for i in 0..=n {
        out[at + i] = relay(here);
        here += step;
    }
}

// Writes the way from the source to the target, right or left, as path j.
fn lay(source: u64, target: u64, right: bool, j: usize, places: &mut [u64], counts: &mut [u64])
    requires { (source < 8) × (target < 8) × (j * 11 + 11 ≤ length places.old) × (j < length counts.old) }
    ensures { Side source target right j places.old counts.old places.new counts.new }
{
    let n = hops(source, target, right);
    write(spot(source), step(right), n as usize, j * 11, places);
    counts[j] = n;
}

// Writes a fan to the targets, one or two: to 4 and 6 from 0 it is 0, 1, 5, 4 and 0, 2, 3, 7, 6.
pub fn plan(source: u64, targets: &[u64], places: &mut [u64], counts: &mut [u64])
    requires { Ready (two 1) source targets.now places.old counts.old }
    ensures { Drawn (two 1) source targets.now places.old counts.old places.new counts.new }
{
    if targets.len() == 1 {
        lay(source, targets[0], true, 0, places, counts);
        return;
    }
    let nearer = far(source, targets[0]) < far(source, targets[1]);
    lay(source, targets[0], nearer, 0, places, counts);
    lay(source, targets[1], !nearer, 1, places, counts);
}
