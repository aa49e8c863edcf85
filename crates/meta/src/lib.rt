// Metacubes: links, next hop and plain route. A relay's number holds its class at the top, then the last part down to part 0; in a class the bits of its own part
// can be changed, and those of the class everywhere.
#![tactic(auto)]

mod steps;
mod ways;

ghost use Rattle.std.specs.Prelude.{◌≡◌, false};
ghost use Rattle.answers.specs.Told.{answer_told, yes_no_told, against};
ghost use Rattle.meta.specs.Says as says;

use answers::Refusal;
pub use meta_parts::Metacube;
pub use requests::Facts;
use requests::Ways;
use ways::Walked;

// What stands against a source and a target, the first of 1, 2, 5: of relay 32 as the source in size 66 it is 2.
pub fn checked(size: Metacube, source: u64, target: u64) -> Result<(), Refusal>
    ensures { against result ≡ says.pair_against size.0 source target false }
{
    size.pair(source, target)
}

// Whether source and target are linked: `linked(Metacube(130), 256, 260)` is yes. Refuses with 1, 2, 5.
pub fn linked(size: Metacube, source: u64, target: u64) -> Result<bool, Refusal>
    ensures { yes_no_told result ≡ says.linked_told size.0 source target }
{
    Walked(size).linked(source, target)
}

// The relay after source on the way to target, and target itself where they are the same: `next_hop(Metacube(66), 3, 31)` is 19. Refuses with 1, 2, 5.
pub fn next_hop(size: Metacube, source: u64, target: u64) -> Result<u64, Refusal>
    ensures { answer_told result ≡ says.next_told size.0 source target }
{
    Walked(size).next_hop(source, target)
}

// Writes the plain route from source to target into `out`, from place 0, and gives its hops; the places after it stay as they were.
// `route(Metacube(66), 0, 31, ..)` writes 0, 1, 3, 19, 23, 31 and gives 5. Refuses with 1, 2, 5, 8, and then leaves `out` as it was.
pub fn route(size: Metacube, source: u64, target: u64, out: &mut [u64]) -> Result<u64, Refusal>
    ensures result_value { answer_told result ≡ says.route_told size.0 source target out.old }
    ensures out_after { out.new ≡ says.route_leaves size.0 source target out.old }
{
    Walked(size).route(source, target, out)
}
