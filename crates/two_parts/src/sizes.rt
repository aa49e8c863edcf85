// The order of a mesh and its facts.
ghost use Rattle.std.specs.Prelude.{◌≡◌, ◌+◌, ◌≤◌};
ghost use Rattle.two_parts.specs.Two as specs;
ghost use Rattle.two_parts.specs.Parts.{short-ways};

use requests::Facts;

// The order of a mesh: 1 to 5, and the facts that go with it.
#[derive(Clone, Copy)]
pub struct Order(pub u64);

impl Order {
    pub const LEAST: u64 = 1;

    pub const MOST: u64 = 5;
}

// Of order 3 there are 2048 relays with 4 links each, and the longest path has 42 hops.
impl Facts for Order {
    ghost is_known = { λ order. specs.known order.0 };

    ghost mesh = { λ order. specs.two order.0 };

    ghost short = { λ order known. short-ways order.0 known };

    // Whether it is an order that is served: 1 to 5.
    fn known(self) -> bool {
        Self::LEAST <= self.0 && self.0 <= Self::MOST
    }

    fn relays_in(self) -> u64 {
        relays_in(self)
    }

    fn links_in(self) -> u64 {
        self.0 + 1
    }

    fn longest_in(self) -> u64 {
        longest_in(self)
    }
}

pub fn slots_in(order: Order) -> u64
    requires { order.0 ≤ 5 }
    ensures { result ≡ specs.slots order.0 }
{
    bits::power(order.0 as u32)
}

pub fn blocks_in(order: Order) -> u64
    requires { order.0 ≤ 5 }
    ensures { result ≡ specs.blocks order.0 }
{
    bits::power(slots_in(order) as u32)
}

pub fn relays_in(order: Order) -> u64
    requires { order.0 ≤ 5 }
    ensures { result ≡ specs.relays order.0 }
{
    bits::power((slots_in(order) + order.0) as u32)
}

pub fn longest_in(order: Order) -> u64
    requires { order.0 ≤ 5 }
    ensures { result ≡ specs.longest order.0 }
{
    let m = order.0;
    let slots = slots_in(order);
    m * slots + slots + 2 * m + 4
}
