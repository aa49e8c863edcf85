// A relay's number and its parts: block and slot, each under its own type.
ghost use Rattle.std.specs.Prelude.{◌≡◌, ◌≤◌};
ghost use Rattle.two_parts.specs.Two as specs;
ghost use Rattle.two_parts.specs.Needs.{Placed};

use crate::sizes;
use crate::sizes::Order;

// A block's number: 2^m bits in a mesh of order m.
#[derive(Clone, Copy)]
pub struct Block(pub u64);

// A slot's number: m bits in a mesh of order m.
#[derive(Clone, Copy)]
pub struct Slot(pub u64);

// The block of a relay's number: `block_of(Order(2), 27)` is block 6.
pub fn block_of(order: Order, relay: u64) -> Block
    requires { order.0 ≤ 5 }
    ensures { result.0 ≡ specs.block_of order.0 relay }
{
    Block(relay / sizes::slots_in(order))
}

// The slot of a relay's number: `slot_of(Order(2), 27)` is slot 3.
pub fn slot_of(order: Order, relay: u64) -> Slot
    requires { order.0 ≤ 5 }
    ensures { result.0 ≡ specs.slot_of order.0 relay }
{
    Slot(relay % sizes::slots_in(order))
}

// The number of a relay: block 6, slot 3 of order 2 is 27.
pub fn relay_of(order: Order, block: Block, slot: Slot) -> u64
    requires { Placed order.0 block.0 slot.0 }
    ensures { result ≡ specs.relay order.0 block.0 slot.0 }
{
    block.0 * sizes::slots_in(order) + slot.0
}
