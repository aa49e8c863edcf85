// The lines of a file by themselves: whether each is one, and which counts the file tells.
ghost use Rattle.std.specs.Prelude.{◌<◌, length};
ghost use Rattle.dimacs.specs.Parse.{lines_of};
ghost use Rattle.dimacs_read.specs.Forms as forms;

use dimacs_take::Line;

// One line, behind lines that told these counts: the counts that are told then, and the place after it. None where it is malformed, tells counts again or is an `e` line before any.
fn next_line(
    text: &[u8],
    at: usize,
    told: Option<(u64, u64)>,
) -> Option<(Option<(u64, u64)>, usize)>
    requires { at < length text.now }
    ensures { forms.Stepped text.now at told result }
{
    let (line, next) = dimacs_take::line_at(text, at)?;
    match (line, told) {
        (Line::Comment, _) => Some((told, next)),
        (Line::Counts(n, m), None) => Some((Some((n, m)), next)),
        (Line::Link(_, _), Some(_)) => Some((told, next)),
        _ => None,
    }
}

// The counts that a file tells, none where it has no `p` line; or its first line that is malformed, from 1.
pub fn formed(text: &[u8]) -> Result<Option<(u64, u64)>, usize>
    ensures { forms.Formed (lines_of text.now) result }
{
    let mut at = 0usize;
    let mut line = 0usize;
    let mut counts = None;
    while at < text.len() {
        let Some((told, next)) = next_line(text, at, counts) else {
            return Err(line + 1);
        };
        counts = told;
        at = next;
        line += 1;
    }
    Ok(counts)
}
