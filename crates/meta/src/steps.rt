// The next hop.
ghost use Rattle.std.specs.Prelude.{◌≡◌};
ghost use Rattle.std.specs.Int.Bits.{bit_xor};
ghost use Rattle.meta_parts.specs.Meta as specs;
ghost use Rattle.meta_parts.specs.Needs.{Fine};
ghost use Rattle.meta.specs.Cycle as cycle;
ghost use Rattle.meta.specs.Next as walk;
ghost use Rattle.meta.specs.Says.{next};
ghost use Rattle.meta.specs.Needs.{Class, Part, Apart};

use meta_parts::Metacube;

// The class after class c in the cyclic Gray order of k bits: `after(2, 2)` is 0, the first after the last.
fn after(k: u64, c: u64) -> u64
    requires { Class k c }
    ensures { result ≡ cycle.after k c }
{
    let place = c ^ (c >> 1) ^ (c >> 2);
    bits::gray((place + 1) % bits::power(k as u32))
}

// Part c of a number, of m bits.
fn part_of(m: u64, c: u64, y: u64) -> u64
    requires { Part m c }
    ensures { result ≡ specs.part m c y }
{
    (y >> (m * c)) % bits::power(m as u32)
}

// The class to go to from the class of u, where it is not the own part that differs: the next one while some part does, else that of the target.
fn heading(size: Metacube, u: u64, t: u64) -> u64
    requires { Fine size.0 u t }
    ensures { result ≡ walk.heading (specs.class_bits size.0) (specs.part_bits size.0) (specs.class_of (specs.class_bits size.0) (specs.part_bits size.0) u) (specs.class_of (specs.class_bits size.0) (specs.part_bits size.0) t) (bit_xor u t) }
{
    let span = meta_parts::span_in(size) as u32;
    if (u ^ t) % bits::power(span) == 0 {
        return meta_parts::class_of(size, t);
    }
    after(meta_parts::class_bits(size), meta_parts::class_of(size, u))
}

// The bit that changes at the next hop.
fn turn(size: Metacube, u: u64, t: u64) -> u32
    requires { Apart size.0 u t }
    ensures { result ≡ walk.turn (specs.class_bits size.0) (specs.part_bits size.0) (specs.class_of (specs.class_bits size.0) (specs.part_bits size.0) u) (specs.class_of (specs.class_bits size.0) (specs.part_bits size.0) t) (bit_xor u t) }
{
    let m = meta_parts::part_bits(size);
    let c = meta_parts::class_of(size, u);
    let here = part_of(m, c, u ^ t);
    if here == 0 {
        let h = heading(size, u, t);
        return meta_parts::span_in(size) as u32 + bits::lowest(c ^ h);
    }
    (m * c) as u32 + bits::lowest(here)
}

// The relay after u on the way to t.
pub fn hop(size: Metacube, u: u64, t: u64) -> u64
    requires { Fine size.0 u t }
    ensures { result ≡ next size.0 u t }
{
    if u == t {
        return u;
    }
    bits::flip(u, turn(size, u, t))
}
