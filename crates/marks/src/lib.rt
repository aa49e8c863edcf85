// Marks of relays, in 256 words that the caller keeps: each relay that is put has two bits of one word set. A relay without its mark was not put; one with it may
// have been, and is looked for. Inner: called by other crates of the library, which meet the `requires`.
#![tactic(auto)]

ghost use Rattle.std.specs.Prelude.{◌≡◌, ◌/◌, ◌%◌, ◌<◌, length};
ghost use Rattle.marks.specs.Marks as specs;

// The words that marks take.
pub const WORDS: usize = 256;

// A relay's number scattered over 64 bits, so that relays near each other have their marks apart: no answer depends on it.
fn scatter(x: u64) -> u64
    ensures { result ≡ specs.scatter x }
{
    x % 4294967296 * 1640531527 + x / 4294967296 * 625341585
}

// The word that has the relay's mark, by its scattered number.
fn word(s: u64) -> usize
    ensures { (result ≡ specs.word_at s) × (result < specs.words) }
{
    (s / 16777216 % 256) as usize
}

// One of the two bits of the mark in that word: the digits of the scattered number to the base 64 choose it, those at FIRST the first and those at SECOND the second.
fn place<const UNIT: u64>(s: u64) -> u32
    requires { 0 < UNIT }
    ensures { (result ≡ s / UNIT % 64) × (result < 64) }
{
    (s / UNIT % 64) as u32
}

const FIRST: u64 = 4294967296;

const SECOND: u64 = 262144;

// Whether the relay has its mark. Most that have none have not even its first bit.
pub fn marked(marks: &[u64], x: u64) -> bool
    requires { length marks.now ≡ specs.words }
    ensures { result ≡ specs.marked marks.now x }
{
    let s = scatter(x);
    let w = marks[word(s)];
    bits::bit(w, place::<FIRST>(s)) && bits::bit(w, place::<SECOND>(s))
}

// Gives the relay its mark.
pub fn put(marks: &mut [u64], x: u64)
    requires { length marks.old ≡ specs.words }
    ensures { marks.new ≡ specs.put marks.old x }
{
    let s = scatter(x);
    let i = word(s);
    let one = bits::power(place::<FIRST>(s));
    let other = bits::power(place::<SECOND>(s));
    marks[i] = marks[i] | one | other;
}
