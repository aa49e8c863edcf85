// A relay's class, and which relays are linked.
ghost use Rattle.std.specs.Prelude.{◌≡◌, true, ◌<◌};
ghost use Rattle.meta_parts.specs.Meta as specs;
ghost use Rattle.meta_parts.specs.Near as links;
ghost use Rattle.meta_parts.specs.Needs.{Fine};

use crate::sizes;
use crate::sizes::Metacube;

// The class of a relay, the top bits of its number: `class_of(Metacube(130), 256)` is 1.
pub fn class_of(size: Metacube, u: u64) -> u64
    requires { specs.known size.0 ≡ true }
    ensures { result ≡ specs.class_of (specs.class_bits size.0) (specs.part_bits size.0) u }
{
    u >> sizes::span_in(size)
}

// Whether relay u may change bit j: one of its class, or of its class's own part.
fn opens(size: Metacube, u: u64, j: u64) -> bool
    requires { specs.known size.0 ≡ true }
    ensures { result ≡ links.opens (specs.class_bits size.0) (specs.part_bits size.0) u j }
{
    if sizes::span_in(size) <= j {
        return true;
    }
    j / sizes::part_bits(size) == class_of(size, u)
}

// Whether two numbers are linked relays: they differ in one bit, which the one may change.
pub fn joined(size: Metacube, u: u64, v: u64) -> bool
    requires { specs.known size.0 ≡ true }
    ensures { result ≡ (specs.metacube size.0).linked u v }
{
    if u64::count_ones(u ^ v) == 1 {
        return opens(size, u, bits::lowest(u ^ v) as u64);
    }
    false
}

// The relay at the other end of link i of relay u: the bits of its class's own part first, lowest first, then those of its class. In size 130 the links
// of 256 lead to 260, 264, 0 and 768.
pub fn near(size: Metacube, u: u64, i: u64) -> u64
    requires fine { Fine size.0 u u }
    requires i_bound { i < (specs.metacube size.0).links }
    ensures { result ≡ links.near (specs.class_bits size.0) (specs.part_bits size.0) u i }
{
    let m = sizes::part_bits(size);
    if i < m {
        return bits::flip(u, (m * class_of(size, u) + i) as u32);
    }
    bits::flip(u, (sizes::span_in(size) + (i - m)) as u32)
}
