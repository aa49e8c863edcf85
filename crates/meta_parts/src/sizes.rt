// The size of a metacube and its facts.
ghost use Rattle.std.specs.Prelude.{◌≡◌, true, ◌+◌, ◌≤◌};
ghost use Rattle.meta_parts.specs.Meta as specs;
ghost use Rattle.meta_parts.specs.Sizes.{short-ways};

use requests::Facts;

// The size of a metacube, k·64 + m for k class bits and parts of m bits: 130 has 2 class bits and four parts of 2 bits. Every number can be asked; what is
// no size is refused by each routine.
#[derive(Clone, Copy)]
pub struct Metacube(pub u64);

impl Metacube {
    pub const MOST_CLASS_BITS: u64 = 3;

    pub const MOST_BITS: u64 = 37;
}

// Of size 130 there are 1024 relays with 4 links each, and the longest path has 13 hops.
impl Facts for Metacube {
    ghost is_known = { λ size. specs.known size.0 };

    ghost mesh = { λ size. specs.metacube size.0 };

    ghost short = { λ size known. short-ways size.0 known };

    // Whether there is a metacube of this size: `Metacube(82).known()` is true, `Metacube(83).known()` is false.
    fn known(self) -> bool {
        let k = class_bits(self);
        if Self::MOST_CLASS_BITS < k {
            return false;
        }
        if part_bits(self) < 1 {
            return false;
        }
        k + span_in(self) <= Self::MOST_BITS
    }

    fn relays_in(self) -> u64 {
        relays_in(self)
    }

    fn links_in(self) -> u64 {
        links_in(self)
    }

    fn longest_in(self) -> u64 {
        longest_in(self)
    }
}

// k of a size.
pub fn class_bits(size: Metacube) -> u64
    ensures { result ≡ specs.class_bits size.0 }
{
    size.0 / 64
}

// m of a size.
pub fn part_bits(size: Metacube) -> u64
    ensures { result ≡ specs.part_bits size.0 }
{
    size.0 % 64
}

// The bits of all parts: 8 of size 130.
pub fn span_in(size: Metacube) -> u64
    requires { specs.class_bits size.0 ≤ 3 }
    ensures { result ≡ specs.span (specs.class_bits size.0) (specs.part_bits size.0) }
{
    part_bits(size) * bits::power(class_bits(size) as u32)
}

pub fn relays_in(size: Metacube) -> u64
    requires { specs.known size.0 ≡ true }
    ensures { result ≡ (specs.metacube size.0).relays }
{
    bits::power((class_bits(size) + span_in(size)) as u32)
}

pub fn links_in(size: Metacube) -> u64
    requires { specs.known size.0 ≡ true }
    ensures { result ≡ (specs.metacube size.0).links }
{
    class_bits(size) + part_bits(size)
}

pub fn longest_in(size: Metacube) -> u64
    requires { specs.known size.0 ≡ true }
    ensures { result ≡ (specs.metacube size.0).longest }
{
    let k = class_bits(size);
    bits::power(k as u32) - 1 + k + span_in(size)
}
