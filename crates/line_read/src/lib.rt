// A request line read: a word, then numbers with a space before each, up to the line end.
#![tactic(auto)]

ghost use Rattle.std.specs.Prelude.{◌≡◌, ◌++◌, ◌+◌, ◌≤◌, length, take, drop};
ghost use Rattle.line.specs.Parse as specs;
ghost use Rattle.line_read.specs.Reads.{ReadRequest};
ghost use Rattle.line.specs.Says.{line_told, asked_told, asked_leaves};
ghost use Rattle.line.specs.Text.{most_targets};

use answers::Refusal;
use line::Asked;
use mesh::Mesh;

// The request of a line, its numbers into `numbers`: size, source, then the targets. Its kind comes back, and how many targets it has.
fn parse(text: &[u8], numbers: &mut [u64]) -> Option<(u64, usize)>
    requires { length numbers.old ≡ most_targets + 2 }
    ensures { ReadRequest numbers.new result (specs.parse text.now) }
{
    let (kind, at) = line_take::first_word(text)?;
    let k = line_take::all_fields(text, at, numbers)?;
    Some((kind, k.checked_sub(2)?))
}

// Copies the numbers from place 2 on, so many, to the front of the targets.
fn copy(numbers: &[u64], targets: &mut [u64], count: usize)
    requires { (count + 2 ≤ length numbers.now) × (count ≤ length targets.old) }
    ensures { targets.new ≡ take count (drop 2 numbers.now) ++ drop count targets.old }
{
    targets[..count].copy_from_slice(&numbers[2..count + 2]);
}

// The request that a text states: `two 1 0 5 1` and a line end is the two-level mesh of order 1, source 0 and 2 targets, of which 5 and 1 then
// stand at the front of `targets`. What follows the line end is not looked at, nor what follows the first 1,024 bytes. Refuses with 10 what is
// no such line, and with 8 where there are fewer places than targets; a refusal changes nothing.
pub fn read(text: &[u8], targets: &mut [u64]) -> Result<Asked, Refusal>
    ensures told { line_told result ≡ asked_told (specs.asked text.now) (length targets.old) }
    ensures left { targets.new ≡ asked_leaves (specs.asked text.now) targets.old }
{
    let mut numbers = [0u64; 66];
    let n = text.len().min(line::MOST_BYTES);
    let (kind, count) = parse(&text[..n], &mut numbers).ok_or(Refusal::Unreadable)?;
    if targets.len() < count {
        return Err(Refusal::NoRoom);
    }
    copy(&numbers, targets, count);
    Ok(Asked {
        mesh: Mesh {
            kind,
            size: numbers[0],
        },
        source: numbers[1],
        count,
    })
}
