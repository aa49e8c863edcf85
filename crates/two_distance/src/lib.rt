// Distances: the fewest links between two relays of the two-level mesh, for orders 1 to 3.
#![tactic(auto)]

ghost use Rattle.std.specs.Prelude.{◌≡◌};
ghost use Rattle.answers.specs.Told.{answer_told};
ghost use Rattle.two_distance.specs.Tables as specs;
ghost use Rattle.two_distance.specs.Says.{Held, distance_told};

mod tables;

use answers::Refusal;
use two::{Order, Relay};

// The largest order that a distance is answered for.
pub const MOST: u64 = 3;

// The fewest links from relay 0, from the table of the order.
fn from_zero(order: Order, relay: u64) -> u64
    requires { Held order.0 relay }
    ensures { result ≡ specs.entry order.0 relay }
{
    let at = relay as usize;
    match order.0 {
        1 => u64::from(tables::HOPS1[at]),
        2 => u64::from(tables::HOPS2[at]),
        _ => u64::from(tables::HOPS3[at]),
    }
}

// The fewest links between two numbers: the pair is brought to relay 0, where the table has the answer.
fn between(order: Order, source: u64, target: u64) -> Result<u64, Refusal>
    ensures { answer_told result ≡ distance_told order.0 source target }
{
    if Order::MOST < order.0 {
        return Err(Refusal::UnknownSize);
    }
    if MOST < order.0 {
        return Err(Refusal::NoDistance);
    }
    two::checked(order, source, target)?;
    Ok(from_zero(order, two_parts::seen_from(order, source, target)))
}

// The fewest links between source and target: `distance(Order(1), 0, 6)` is 4. Refuses with 1, 9, 2, 5; a part out of range is refused 2 or 5.
pub fn distance<R: Relay>(order: Order, source: R, target: R) -> Result<u64, Refusal>
    ensures { answer_told result ≡ distance_told order.0 (R.named_in order.0 source) (R.named_in order.0 target) }
{
    between(order, source.named(order), target.named(order))
}
