// A relay, by its number or by its block and its slot.
ghost use Rattle.std.specs.Prelude.{◌≡◌, ℕ};
ghost use Rattle.two_parts.specs.Two as specs;

use crate::parts;
use two_parts::{Block, Order, Slot};

pub trait Relay: Copy {
    ghost named_in: { ℕ → Self → ℕ };

    // Its number, and one that no relay has where a part is out of range.
    fn named(self, order: Order) -> u64
        ensures { result ≡ named_in order.0 self };
}

impl Relay for u64 {
    ghost named_in = { λ m r. r };

    fn named(self, _order: Order) -> u64 {
        self
    }
}

impl Relay for (Block, Slot) {
    ghost named_in = { λ m r. specs.named m r.0.0 r.1.0 };

    fn named(self, order: Order) -> u64 {
        parts::named(order, self.0, self.1)
    }
}
