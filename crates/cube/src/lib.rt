// The plain cube: relays are the numbers below 2^n, and two are linked when they differ in exactly one bit.
#![tactic(auto)]

mod plain;

ghost use Rattle.std.specs.Prelude.{◌≡◌, ◌<◌};
ghost use Rattle.answers.specs.Told.{yes_no_told};
ghost use Rattle.cube.specs.Cube as specs;
ghost use Rattle.cube.specs.Route as route;
ghost use Rattle.cube.specs.Says.{linked_told};
ghost use Rattle.cube.specs.Sizes.{short};

use answers::Refusal;
pub use plain::{next_hop, route};
pub use requests::Facts;
use requests::{Hops, Ways};

// How many dimensions a cube has. Every number can be asked; what is not from 1 to 32 is refused by each routine.
#[derive(Clone, Copy)]
pub struct Size(pub u64);

impl Size {
    pub const LEAST: u64 = 1;

    pub const MOST: u64 = 32;
}

// `Size(4)` has 16 relays, of 4 links each; its longest path has 5 hops, and takes 6 places.
impl Facts for Size {
    ghost is_known = { λ size. specs.known size.0 };

    ghost mesh = { λ size. specs.cube size.0 };

    // Whether there are cubes of this size: `Size(32).known()` is true, `Size(33).known()` is false.
    fn known(self) -> bool {
        (Self::LEAST..=Self::MOST).contains(&self.0)
    }

    fn relays_in(self) -> u64 {
        bits::power(self.0 as u32)
    }

    fn links_in(self) -> u64 {
        self.0
    }

    fn longest_in(self) -> u64 {
        self.0 + 1
    }

    ghost short = { λ size. short size.0 };
}

// The next hop corrects the lowest bit that differs.
impl Hops for Size {
    ghost next = { λ size. route.next };

    ghost hops = { λ size. route.hops };

    fn hop(self, u: u64, t: u64) -> u64 {
        plain::next(u, t)
    }
}

impl Ways for Size {
    fn joined(self, u: u64, v: u64) -> bool {
        differ_in_one(u, v)
    }

    fn short(self, s: u64, t: u64, n: usize) -> bool {
        n <= plain::hops(s, t)
    }
}

// Whether two relays are linked: in `Size(4)` 3 and 11 are, 3 and 4 are not, and none is linked to itself.
pub fn linked(size: Size, source: u64, target: u64) -> Result<bool, Refusal>
    ensures { yes_no_told result ≡ linked_told size.0 source target }
{
    size.linked(source, target)
}

// Whether two numbers differ in exactly one bit, as linked relays do: 3 and 11 do.
pub fn differ_in_one(u: u64, v: u64) -> bool
    ensures { result ≡ specs.linked u v }
{
    (u ^ v).count_ones() == 1
}
