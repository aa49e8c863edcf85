// Which relays are linked.
ghost use Rattle.std.specs.Prelude.{◌≡◌, ◌<◌, ◌≤◌};
ghost use Rattle.two_parts.specs.Two as specs;
ghost use Rattle.two_parts.specs.Near as links;
ghost use Rattle.two_parts.specs.Needs.{Fine};

use crate::parts;
use crate::parts::{Block, Slot};
use crate::sizes::Order;

// Whether a block and slot are linked to a block and slot.
#[tactic(auto, using(crate::proofs::Rules::joined_cases))]
pub fn joined(b: Block, p: Slot, c: Block, q: Slot) -> bool
    requires { p.0 < 64 }
    ensures { result ≡ specs.joined b.0 p.0 c.0 q.0 }
{
    if b.0 == c.0 {
        return u64::count_ones(p.0 ^ q.0) == 1;
    }
    if p.0 == q.0 {
        return b.0 ^ c.0 == bits::power(p.0 as u32);
    }
    false
}

// Whether relays u and v are linked.
pub fn link(order: Order, u: u64, v: u64) -> bool
    requires { order.0 ≤ 5 }
    ensures { result ≡ specs.linked order.0 u v }
{
    joined(
        parts::block_of(order, u),
        parts::slot_of(order, u),
        parts::block_of(order, v),
        parts::slot_of(order, v),
    )
}

// The relay at the other end of link i of relay u: bit i of its slot changed, and for i = m the block's bit of its slot. `near(Order(2), 27, 2)`
// is 59.
pub fn near(order: Order, u: u64, i: u64) -> u64
    requires fine { Fine order.0 u u }
    requires i_le_order { i ≤ order.0 }
    ensures { result ≡ links.near order.0 u i }
{
    let b = parts::block_of(order, u);
    let p = parts::slot_of(order, u);
    if i < order.0 {
        return parts::relay_of(order, b, Slot(bits::flip(p.0, i as u32)));
    }
    parts::relay_of(order, Block(bits::flip(b.0, p.0 as u32)), p)
}
