// A numeral read from a text, digit by digit.
ghost use Rattle.std.specs.Prelude.{◌≡◌, true, ◌+◌, ◌<◌, ◌≤◌, length, drop, SomeIff};
ghost use Rattle.decimal.specs.Number as specs;
ghost use Rattle.decimal.specs.Read.{Read};

// 12 with the digit `7` is 127; none where that is 2^64 or more.
fn with_digit(value: u64, b: u8) -> Option<u64>
    requires { specs.is_digit b ≡ true }
    ensures { SomeIff result (specs.longer value b < specs.limit) (specs.longer value b) }
{
    value.checked_mul(10)?.checked_add(u64::from(b - b'0'))
}

// A number of which the value is read, with the digits that go on at a place.
fn more(text: &[u8], at: usize, value: u64) -> Option<(u64, usize)>
    requires { at ≤ length text.now }
    ensures { Read text.now at result (specs.more value (drop at text.now)) }
{
    let mut v = value;
    for i in at..text.len() {
        let b = text[i];
        if !b.is_ascii_digit() {
            return Some((v, i));
        }
        v = with_digit(v, b)?;
    }
    Some((v, text.len()))
}

// Whether a digit stands at a place.
fn on_digit(text: &[u8], at: usize) -> bool
    ensures { result ≡ specs.on_digit (drop at text.now) }
{
    text.get(at).is_some_and(|b| b.is_ascii_digit())
}

// The number that begins at a place, and the place after its last digit: in `5 207` at 2 it is 207, and ends at 5. None where there is no digit, a zero
// before another digit, or a number of 2^64 or more.
#[tactic(auto, using(crate::proofs::Rules::first_cases))]
pub fn read(text: &[u8], at: usize) -> Option<(u64, usize)>
    requires { at ≤ length text.now }
    ensures { Read text.now (at + 1) result (specs.number (drop at text.now)) }
{
    if !on_digit(text, at) {
        return None;
    }
    let b = text[at];
    if b != b'0' {
        return more(text, at + 1, u64::from(b - b'0'));
    }
    if on_digit(text, at + 1) {
        return None;
    }
    Some((0, at + 1))
}
