// The parts of a request line, each taken from the front of what is left: its first word, then its numbers. Inner: callers meet each `requires`.
#![tactic(auto)]

ghost use Rattle.std.specs.Prelude.{◌≤◌, length, drop};
ghost use Rattle.line.specs.Parse as specs;
ghost use Rattle.line_take.specs.Reads as reads;

use mesh::Mesh;

// What stands next: a number after a space, with the place after it; or the line end.
#[derive(Clone, Copy)]
pub enum Field {
    Item(u64, usize),
    End,
}

// None for what no line has there.
pub fn next_field(text: &[u8], at: usize) -> Option<Field>
    ensures { reads.ReadField text.now at result }
{
    match *text.get(at)? {
        b'\n' => Some(Field::End),
        b' ' => {
            let (value, end) = decimal::read(text, at + 1)?;
            Some(Field::Item(value, end))
        }
        _ => None,
    }
}

// The numbers from a place on up to the line end, into `out`, which has room for all that there may be; and how many they are.
pub fn all_fields(text: &[u8], at: usize, out: &mut [u64]) -> Option<usize>
    requires { at ≤ length text.now }
    ensures { reads.ReadFields out.new result (specs.fields (length out.old) reads.nothing (drop at text.now)) }
{
    let mut i = at;
    let mut n = 0usize;
    while let Field::Item(value, end) = next_field(text, i)? {
        if out.len() <= n {
            return None;
        }
        out[n] = value;
        n += 1;
        i = end;
    }
    Some(n)
}

// The kind that the first word names, and the place after the word.
pub fn first_word(text: &[u8]) -> Option<(u64, usize)>
    ensures { reads.ReadWord text.now result }
{
    if text.starts_with(b"cube") {
        return Some((Mesh::CUBE, 4));
    }
    if text.starts_with(b"two") {
        return Some((Mesh::TWO, 3));
    }
    None
}
