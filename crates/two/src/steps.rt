// The next hop.
ghost use Rattle.std.specs.Prelude.{◌≡◌};
ghost use Rattle.two.specs.Next as next;
ghost use Rattle.two.specs.Ordered as order;
ghost use Rattle.two.specs.Turns as turns;
ghost use Rattle.two.specs.Needs.{Differ, Slots};
ghost use Rattle.two_parts.specs.Needs.{Fine};

use two_parts::{Block, Order, Slot};

// The 32 low bits of x in the Gray order: bit i of what comes out is bit i xor (i div 2) of x. That place is i with bit 1 added to bit 0, then 2 to 1, 3 to 2 and
// 4 to 3: each is a swap of the places that have the upper of the two bits, the last one first. `ordered(8)` is 4.
fn ordered(x: u64) -> u64
    ensures { result ≡ order.ordered x }
{
    let by_four = bits::swap(x, 0x00ff0000, 8);
    let by_three = bits::swap(by_four, 0x0f000f00, 4);
    let by_two = bits::swap(by_three, 0x30303030, 2);
    bits::swap(by_two, 0x44444444, 1)
}

// Of the bits in which two blocks differ, the one to correct first: the slot at which to cross. The order of block bits is here alone. Where they
// differ in none, what is told means nothing.
fn crossing(order: Order, x: u64) -> Slot
    requires { Differ order.0 x }
    ensures { (x ≡ 0 → ⊥) → result.0 ≡ next.crossing order.0 x }
{
    Slot(bits::gray(bits::first(ordered(x)) as u64))
}

// The slot to walk to, where the blocks differ in the bits of `apart` and the target's slot is q.
fn heading(order: Order, apart: Block, q: Slot) -> Slot
    requires { Differ order.0 apart.0 }
    ensures { result.0 ≡ turns.aim order.0 apart.0 q.0 }
{
    let far = crossing(order, apart.0);
    if apart.0 == 0 {
        return q;
    }
    far
}

// The bit of a relay's number that changes where its slot p is the one to walk to: the block's bit p, as a number; 0 where the blocks agree.
fn across(order: Order, apart: Block, p: Slot) -> u64
    requires { Slots order.0 p.0 p.0 }
    ensures { result ≡ turns.across order.0 apart.0 p.0 }
{
    if apart.0 == 0 {
        return 0;
    }
    two_parts::slots_in(order) << p.0
}

// The bit of a relay's number that changes on the way from slot p to slot h: the lowest that differs, as a number; 0 where they are the same.
fn along(order: Order, p: Slot, h: Slot) -> u64
    requires { Slots order.0 p.0 h.0 }
    ensures { result ≡ turns.along order.0 p.0 h.0 }
{
    if p.0 == h.0 {
        return 0;
    }
    bits::power(bits::lowest(p.0 ^ h.0))
}

// The bit of a relay's number that changes at the next hop, from slot p towards slot h. Both bits are at hand before one is chosen: a choice between values is
// no branch, which a relay's frames would have guessed wrong half of the time.
fn change(order: Order, apart: Block, p: Slot, h: Slot) -> u64
    requires { Slots order.0 p.0 h.0 }
    ensures { result ≡ turns.change order.0 apart.0 p.0 h.0 }
{
    let over = across(order, apart, p);
    let low = along(order, p, h);
    if p.0 == h.0 {
        return over;
    }
    low
}

// The relay after u on the way to t.
pub fn hop(order: Order, u: u64, t: u64) -> u64
    requires { Fine order.0 u t }
    ensures { result ≡ next.next order.0 u t }
{
    let slots = two_parts::slots_in(order);
    let apart = Block((u ^ t) / slots);
    let p = Slot(u % slots);
    let h = heading(order, apart, Slot(t % slots));
    u ^ change(order, apart, p, h)
}
