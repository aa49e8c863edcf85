// What the programs of worked cases share: the numbers of standard input, runs of them, and numbers and answers written.
#![tactic(auto)]

ghost use Rattle.std.specs.Prelude.{ℕ, ◌≡◌, ◌<◌, ◌≤◌, length, take, IfOk, OnErr};
ghost use Rattle.std.specs.Io.KnownBytes.{Consumes, IsAtEnd};

use answers::Refusal;
use std::io;
use std::io::Read;

// What the letter F stands for: 2^64 - 1.
pub const FILLER: u64 = 18446744073709551615;

// The number with one more digit.
fn longer(value: u64, byte: u8) -> u64 {
    if byte == b'F' {
        return FILLER;
    }
    let ten = value.wrapping_mul(10);
    ten.wrapping_add(u64::from(byte).wrapping_sub(48))
}

// Writes the numbers of a text into `out`, as many as it holds, and counts them. Between them stand spaces and line ends.
pub fn numbers(text: &[u8], out: &mut [u64]) -> usize
    ensures { result ≤ length out.new }
{
    let mut n = 0usize;
    for word in text.split(|byte| *byte <= 32) {
        if word.is_empty() {
            continue;
        }
        if out.len() <= n {
            return n;
        }
        out[n] = word.iter().fold(0, |value, byte| longer(value, *byte));
        n += 1;
    }
    n
}

// The number at place i, and 0 beyond the end.
pub fn item(list: &[u64], i: usize) -> u64 {
    list.get(i).copied().unwrap_or(0)
}

// The run whose length stands at place `at`, and nothing where it does not fit.
pub fn run(list: &[u64], at: usize) -> &[u64]
    ensures { length result.now ≤ length list.now }
{
    let Some((n, rest)) = list.get(at..).and_then(|left| left.split_first()) else {
        return &list[..0];
    };
    rest.get(..*n as usize).unwrap_or(&list[..0])
}

// The smaller of two numbers.
pub fn least(a: usize, b: usize) -> usize
    ensures { (result ≤ a) × (result ≤ b) }
{
    a.min(b)
}

pub fn text(to: &impl Print, s: &[u8]) -> io::Result<()> {
    to.write_all(s)
}

// A number after a space.
pub fn put(to: &impl Print, n: u64) -> io::Result<()> {
    print!(to; " {n}")
}

// The first n numbers of a list.
pub fn put_first(to: &impl Print, list: &[u64], n: usize) -> io::Result<()> {
    for x in list.iter().take(n) {
        put(to, *x)?;
    }
    Ok(())
}

// 1 for yes, 0 for no.
pub fn flag(b: bool) -> u64 {
    u64::from(b)
}

// What is told, after its name: number, place and value.
pub fn put_answer(to: &impl Print, name: &[u8], a: Result<u64, Refusal>) -> io::Result<()> {
    text(to, name)?;
    put(to, answers::number(a))?;
    put(to, answers::place(a) as u64)?;
    put(to, answers::value(a))
}

pub fn put_yes_no(to: &impl Print, name: &[u8], a: Result<bool, Refusal>) -> io::Result<()> {
    text(to, name)?;
    put(to, answers::number(a))?;
    put(to, answers::place(a) as u64)?;
    put(to, flag(answers::yes(a)))
}

// Reads until the input ends or the room is full, and counts what came. A read fails only while there is room: what had come before it is what the reader lost.
fn read_full<R: Read>(from: &mut R, bytes: &mut [u8]) -> io::Result<usize>
    ensures within { IfOk result (λ n. n ≤ length bytes.new) }
    ensures kept { length bytes.new ≡ length bytes.old }
    ensures bytes { IfOk result (λ n. Consumes (R.remaining from.old) (R.remaining from.new) (take n bytes.new)) }
    ensures end { IfOk result (λ n. n < length bytes.new → IsAtEnd (R.remaining from.new)) }
    ensures err { OnErr result ((k : ℕ) × (k < length bytes.new) × Consumes (R.remaining from.old) (R.remaining from.new) (take k bytes.new)) }
{
    let mut n: usize = 0;
    while n < bytes.len() {
        let got = from.read(&mut bytes[n..])?;
        if got == 0 {
            return Ok(n);
        }
        n += got;
    }
    Ok(n)
}

// The numbers of an input, as many as there is room for. A read that fails leaves the list as it was.
pub fn read_numbers<R: Read>(from: &mut R, bytes: &mut [u8], list: &mut [u64]) -> io::Result<usize>
    ensures within { IfOk result (λ n. n ≤ length list.new) }
    ensures kept { length list.new ≡ length list.old }
    ensures err { OnErr result (list.new ≡ list.old) }
    ensures lost { OnErr result ((k : ℕ) × (k < length bytes.new) × Consumes (R.remaining from.old) (R.remaining from.new) (take k bytes.new)) }
{
    let n = read_full(from, bytes)?;
    Ok(numbers(&bytes[..n], list))
}
