// A relay's number from its parts, and its parts from its number, each judged.
ghost use Rattle.std.specs.Prelude.{◌≡◌};
ghost use Rattle.answers.specs.Told.{answer_told};
ghost use Rattle.two_parts.specs.Two as specs;
ghost use Rattle.two.specs.Says.{place_told, split_told, number_told};

use answers::Refusal;
use requests::Facts;
use two_parts::{Block, Order, Slot};

// The number of a relay for any two parts: a number that no relay has where one is out of range, and 0 where the order is not known.
pub fn named(order: Order, block: Block, slot: Slot) -> u64
    ensures { result ≡ specs.named order.0 block.0 slot.0 }
{
    if !order.known() {
        return 0;
    }
    if two_parts::blocks_in(order) <= block.0 {
        return two_parts::relays_in(order);
    }
    if two_parts::slots_in(order) <= slot.0 {
        return two_parts::relays_in(order);
    }
    two_parts::relay_of(order, block, slot)
}

// The block and the slot of a relay's number: of 27 in order 2 they are 6 and 3. Refuses with 1, 2.
pub fn split(order: Order, relay: u64) -> Result<(Block, Slot), Refusal>
    ensures { place_told result ≡ split_told order.0 relay }
{
    order.pair(relay, 0)?;
    Ok((
        two_parts::block_of(order, relay),
        two_parts::slot_of(order, relay),
    ))
}

// The number of a relay from its block and its slot, each judged: block 6, slot 3 of order 2 is 27. Refuses with 1, 2.
pub fn number(order: Order, block: Block, slot: Slot) -> Result<u64, Refusal>
    ensures { answer_told result ≡ number_told order.0 (specs.named order.0 block.0 slot.0) }
{
    let relay = named(order, block, slot);
    order.pair(relay, 0)?;
    Ok(relay)
}
