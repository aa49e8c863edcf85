// The lines of a graph file, each taken from the front of what is left. Inner: callers meet each `requires`.
#![tactic(auto)]

ghost use Rattle.std.specs.Prelude.{◌<◌, length, drop};
ghost use Rattle.dimacs.specs.Parse as specs;
ghost use Rattle.dimacs_take.specs.Takes as takes;

use line_take::Field;

// A line: a comment, the counts of a `p` line, or the numbers of an `e` line.
#[derive(Clone, Copy)]
pub enum Line {
    Comment,
    Counts(u64, u64),
    Link(u64, u64),
}

// The place after the next newline.
pub fn skip(text: &[u8], at: usize) -> Option<usize>
    ensures { takes.Skipped text.now at result }
{
    let n = text.get(at..)?.iter().position(|b| *b == b'\n')?;
    Some(at + n + 1)
}

// Two numbers, a space before each, and a newline; and the place after it.
fn numbers(text: &[u8], at: usize) -> Option<(u64, u64, usize)>
    ensures { takes.Paired text.now at result (specs.two (drop at text.now)) }
{
    let Field::Item(a, next) = line_take::next_field(text, at)? else {
        return None;
    };
    let Field::Item(b, end) = line_take::next_field(text, next)? else {
        return None;
    };
    let Field::End = line_take::next_field(text, end)? else {
        return None;
    };
    Some((a, b, end + 1))
}

// The line that begins at a place, and the place after it; none where it is malformed.
pub fn line_at(text: &[u8], at: usize) -> Option<(Line, usize)>
    requires { at < length text.now }
    ensures { takes.Taken text.now at result (specs.line_at (drop at text.now)) }
{
    let b = text[at];
    if b == b'c' {
        let next = skip(text, at + 1)?;
        return Some((Line::Comment, next));
    }
    if b == b'e' {
        let (u, v, next) = numbers(text, at + 1)?;
        return Some((Line::Link(u, v), next));
    }
    if text[at..].starts_with(b"p edge") {
        let (n, m, next) = numbers(text, at + 6)?;
        return Some((Line::Counts(n, m), next));
    }
    None
}
