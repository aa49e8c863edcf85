// The plain route: at each relay the lowest bit in which it differs from the target is corrected.
ghost use Rattle.std.specs.Prelude.{◌≡◌};
ghost use Rattle.answers.specs.Told.{answer_told};
ghost use Rattle.cube.specs.Route as specs;
ghost use Rattle.cube.specs.Says.{next_told, route_told, route_leaves};

use crate::Size;
use answers::Refusal;
use requests::Ways;

// The relay after u on the way to t, and t itself where u is t.
pub fn next(u: u64, t: u64) -> u64
    ensures { result ≡ specs.next u t }
{
    if u == t {
        return u;
    }
    bits::flip(u, bits::lowest(u ^ t))
}

// How many hops the route from s to t has: one for each bit that differs, so 3 from 0 to 11.
pub fn hops(s: u64, t: u64) -> usize
    ensures { result ≡ specs.hops s t }
{
    (s ^ t).count_ones() as usize
}

// The next hop from a source towards a target, and the relay itself where it is the target: in `Size(4)` from 0 towards 11
// it is 1.
pub fn next_hop(size: Size, source: u64, target: u64) -> Result<u64, Refusal>
    ensures { answer_told result ≡ next_told size.0 source target }
{
    size.next_hop(source, target)
}

// Writes the route from a source to a target from place 0 of `out`, and answers its hops: in `Size(4)` from 0 to 11 it
// writes 0, 1, 3, 11 and answers 3. What stands after the route stays.
#[tactic(auto, unfolding(crate::specs::Route::route))]
pub fn route(size: Size, source: u64, target: u64, out: &mut [u64]) -> Result<u64, Refusal>
    ensures result_value { answer_told result ≡ route_told size.0 source target out.old }
    ensures out_after { out.new ≡ route_leaves size.0 source target out.old }
{
    size.route(source, target, out)
}
