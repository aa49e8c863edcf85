// Numbers as bytes in a slice, the highest byte first. Inner: callers meet each `requires`.
#![tactic(auto)]

ghost use Rattle.std.specs.Prelude.{◌≡◌, ◌+◌, ◌≤◌, length};
ghost use Rattle.std.proofs.lemmas.List.Edits.{sets};
ghost use Rattle.octets.specs.Big.{big, number};

// Writes the w lowest bytes of a number from the place `at` on: 258 in 4 bytes is 0 0 1 2.
pub fn put(value: u64, w: usize, at: usize, out: &mut [u8])
    requires { at + w ≤ length out.old }
    ensures { out.new ≡ sets out.old at (big w value) }
{
    let mut rest = value;
    for i in 0..w {
        out[at + (w - 1 - i)] = (rest % 256) as u8;
        rest /= 256;
    }
}

// The number that w bytes from the place `at` on are: 0 0 1 2 is 258.
pub fn number(bytes: &[u8], at: usize, w: usize) -> u64
    requires { (at + w ≤ length bytes.now) × (w ≤ 8) }
    ensures { result ≡ number bytes.now at w }
{
    let mut value: u64 = 0;
    for byte in &bytes[at..at + w] {
        value = value * 256 + u64::from(*byte);
    }
    value
}

// Writes the eight bytes of a number from the place `at` on: a store and a byte swap, once compiled.
// Stays: beside `put`, whose width is known only when it runs, so that it is a loop.
pub fn put_eight(value: u64, at: usize, out: &mut [u8])
    requires { at + 8 ≤ length out.old }
    ensures { out.new ≡ sets out.old at (big 8 value) }
{
    out[at..at + 8].copy_from_slice(&value.to_be_bytes());
}

// The number that eight bytes from the place `at` on are: a load and a byte swap, once compiled.
// Stays: an array of eight elements and no `copy_from_slice`, which compiles to a comparison of addresses and a copy on the stack before the byte swap.
pub fn number_eight(bytes: &[u8], at: usize) -> u64
    requires { at + 8 ≤ length bytes.now }
    ensures { result ≡ number bytes.now at 8 }
{
    u64::from_be_bytes([
        bytes[at],
        bytes[at + 1],
        bytes[at + 2],
        bytes[at + 3],
        bytes[at + 4],
        bytes[at + 5],
        bytes[at + 6],
        bytes[at + 7],
    ])
}
