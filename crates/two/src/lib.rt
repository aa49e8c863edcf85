// The two-level mesh of orders 1 to 5: its sizes, blocks and slots, links, next hop and plain route, and the mesh as one of its relays
// sees it. A routine that takes relays takes them by number, or by block and slot, each under its own type.
#![tactic(auto)]

mod parts;
mod relays;
mod steps;
mod ways;

ghost use Rattle.std.specs.Prelude.{◌≡◌, false, length};
ghost use Rattle.answers.specs.Told.{answer_told, yes_no_told, against};
ghost use Rattle.two.specs.Says as says;

use answers::Refusal;
pub use parts::{named, number, split};
pub use relays::Relay;
pub use requests::Facts;
use requests::Ways;
pub use two_parts::{Block, Order, Slot};
use ways::Walked;

// What stands against a source and a target, the first of 1, 2, 5: of relay 8 as the source in order 1 it is 2.
pub fn checked(order: Order, source: u64, target: u64) -> Result<(), Refusal>
    ensures { against result ≡ says.pair_against order.0 source target false }
{
    order.pair(source, target)
}

// Whether source and target are linked: `linked(Order(2), 27, 59)` is yes. Refuses with 1, 2, 5; a part out of range is refused 2 or 5.
pub fn linked<R: Relay>(order: Order, source: R, target: R) -> Result<bool, Refusal>
    ensures { yes_no_told result ≡ says.linked_told order.0 (R.named_in order.0 source) (R.named_in order.0 target) }
{
    Walked(order).linked(source.named(order), target.named(order))
}

// The relay after source on the way to target, and target itself where they are the same: `next_hop(Order(2), 0, 23)` is 4.
// Refuses with 1, 2, 5; a part out of range is refused 2 or 5.
pub fn next_hop<R: Relay>(order: Order, source: R, target: R) -> Result<u64, Refusal>
    ensures { answer_told result ≡ says.next_told order.0 (R.named_in order.0 source) (R.named_in order.0 target) }
{
    Walked(order).next_hop(source.named(order), target.named(order))
}

// Writes the plain route from source to target into `out`, from place 0, and gives its hops; the places after it stay as they were.
// `route(Order(2), 0, 23, ..)` writes 0, 4, 6, 22, 23 and gives 4. Refuses with 1, 2, 5, 8, a part out of range with 2 or 5, and then leaves `out` as it was.
pub fn route<R: Relay>(order: Order, source: R, target: R, out: &mut [u64]) -> Result<u64, Refusal>
    ensures result_value { answer_told result ≡ says.route_told order.0 (R.named_in order.0 source) (R.named_in order.0 target) (length out.old) }
    ensures out_after { out.new ≡ says.route_leaves order.0 (R.named_in order.0 source) (R.named_in order.0 target) out.old }
{
    Walked(order).route(source.named(order), target.named(order), out)
}

// The number of target as source sees it, which itself is then relay 0; links are kept. `seen(Order(2), 27, 25)` is 2. Refuses with 1, 2, 5; a part out of
// range is refused 2 or 5.
pub fn seen<R: Relay>(order: Order, source: R, target: R) -> Result<u64, Refusal>
    ensures { answer_told result ≡ says.seen_told order.0 (R.named_in order.0 source) (R.named_in order.0 target) }
{
    let (s, t) = (source.named(order), target.named(order));
    checked(order, s, t)?;
    Ok(two_parts::seen_from(order, s, t))
}
