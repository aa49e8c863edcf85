// Everything above the cube asked, a case of standard input at a time. A case's first number says who is asked: 1 a mesh and a pair of its relays
// (`pairs`), 2 a pair of the two-level mesh by blocks and slots (`parts`), 3 the judge and survivors (`judging`), 4 the planner (`planning`), 5 the
// writer of sheets and 6 their reader (`sheets`). tests/mesh_cases.py says what is asked and what each line is to be.
#![tactic(auto)]

mod judging;
mod pairs;
mod parts;
mod planning;
mod sheets;

ghost use Rattle.std.specs.Prelude.{◌<◌, length, IfOk};

use std::io;

// The case that stands at a place; where the next one stands.
// Stays: a number says who is asked, as it stands in the input.
fn case(to: &impl Print, list: &[u64], at: usize) -> io::Result<usize>
    requires { at < length list.now }
    ensures { IfOk result (λ next. at < next) }
{
    let who = list[at];
    let from = at + 1;
    match who {
        1 => pairs::case(to, list, from),
        2 => parts::case(to, list, from),
        3 => judging::case(to, list, from),
        4 => planning::case(to, list, from),
        5 => sheets::write(to, list, from),
        _ => sheets::read(to, list, from),
    }
}

// The cases among the first n numbers.
fn cases(to: &impl Print, list: &[u64], n: usize) -> io::Result<()> {
    let end = n.min(list.len());
    let mut at: usize = 0;
    while at < end {
        at = case(to, list, at)?;
    }
    Ok(())
}

fn main(rt: HostRuntime) -> io::Result<()> {
    let mut bytes = [0u8; 262144];
    let mut list = [0u64; 131072];
    let n = script::read_numbers(&mut rt.stdin(), &mut bytes, &mut list)?;
    cases(&rt, &list, n)
}
