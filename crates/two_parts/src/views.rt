// The mesh as one of its relays sees it: that relay becomes relay 0, and links are kept.
ghost use Rattle.std.specs.Prelude.{◌≡◌, ◌^◌, ◌<◌};
ghost use Rattle.two_parts.specs.Seen as view;
ghost use Rattle.two_parts.specs.Groups as groups;
ghost use Rattle.two_parts.specs.Needs.{Fine, Placed};

use crate::parts::{Block, Slot};
use crate::sizes::Order;
use crate::{parts, sizes};

// x with its neighbouring groups of 2^j bits exchanged where bit j of the slot is set; the mask has the lower group of each two. `exchanged(6, Slot(1), 0, 0x55555555)`
// is 9. The exchange is at hand before it is chosen: a choice between values is no branch, which slots at random would have guessed wrong half of the time.
fn exchanged(x: u64, b: Slot, j: u32, mask: u64) -> u64
    requires j_bound { j < 5 }
    requires mask_bound { mask < 2 ^ 32 }
    ensures { result ≡ groups.exchanged mask j b.0 x }
{
    let turned = bits::swap(x, mask, bits::power(j) as u32);
    if bits::bit(b.0, j) {
        return turned;
    }
    x
}

// Block x seen from block a, slot b: x xor a with each bit moved from place p to place p xor b, by one exchange for each bit set in b. Bits that are no
// block's are dropped at the end: none of them comes among the others.
pub fn seen_block(order: Order, a: Block, b: Slot, x: Block) -> Block
    requires { Placed order.0 a.0 b.0 }
    ensures { result.0 ≡ view.seen_block order.0 a.0 b.0 x.0 }
{
    let changed = x.0 ^ a.0;
    let by_one = exchanged(changed, b, 0, 0x55555555);
    let by_two = exchanged(by_one, b, 1, 0x33333333);
    let by_four = exchanged(by_two, b, 2, 0x0f0f0f0f);
    let by_eight = exchanged(by_four, b, 3, 0x00ff00ff);
    let by_sixteen = exchanged(by_eight, b, 4, 0x0000ffff);
    Block(by_sixteen % sizes::blocks_in(order))
}

// Slot y seen from slot b.
pub fn seen_slot(b: Slot, y: Slot) -> Slot
    ensures { result.0 ≡ view.seen_slot b.0 y.0 }
{
    Slot(y.0 ^ b.0)
}

// The number of relay r as relay s sees it.
pub fn seen_from(order: Order, s: u64, r: u64) -> u64
    requires { Fine order.0 s r }
    ensures { result ≡ view.seen order.0 s r }
{
    let b = parts::slot_of(order, s);
    parts::relay_of(
        order,
        seen_block(
            order,
            parts::block_of(order, s),
            b,
            parts::block_of(order, r),
        ),
        seen_slot(b, parts::slot_of(order, r)),
    )
}
