// A number written as its numeral.
ghost use Rattle.std.specs.Prelude.{◌+◌, ◌≤◌, length};
ghost use Rattle.decimal.specs.Digits.{digits};
ghost use Rattle.decimal.specs.Write.{Put};

// Writes the digits of n from a place on, and answers the place after them: 207 at 3 takes the places 3, 4 and 5.
pub fn put(out: &mut [u8], at: usize, n: u64) -> usize
    requires { at + length (digits n) ≤ length out.old }
    ensures { Put out.old at (digits n) result out.new }
{
    if n < 10 {
        out[at] = b'0' + n as u8;
        return at + 1;
    }
    let next = put(out, at, n / 10);
    out[next] = b'0' + (n % 10) as u8;
    next + 1
}
