// The cube asked, a case of standard input at a time, over the cube's own crates alone. A case's first number says what is asked: 1 a size and a pair of
// relays (`pairs`), 2 a fan, 3 a fan through doors (`fans`). tests/cube_cases.py says what is asked and what each line is to be.
#![tactic(auto)]

mod fans;
mod pairs;

ghost use Rattle.std.specs.Prelude.{◌<◌, length, IfOk};

use std::io;

// The case that stands at a place; where the next one stands.
fn case(to: &impl Print, list: &[u64], at: usize) -> io::Result<usize>
    requires { at < length list.now }
    ensures { IfOk result (λ next. at < next) }
{
    match list[at] {
        1 => pairs::case(to, list, at + 1),
        what => fans::case(to, list, at + 1, what == 3),
    }
}

// The cases among the first n numbers.
fn cases(to: &impl Print, list: &[u64], n: usize) -> io::Result<()> {
    let end = n.min(list.len());
    let mut at: usize = 0;
    while at < end {
        at = case(to, list, at)?;
    }
    Ok(())
}

fn main(rt: HostRuntime) -> io::Result<()> {
    let mut bytes = [0u8; 16384];
    let mut list = [0u64; 4096];
    let n = script::read_numbers(&mut rt.stdin(), &mut bytes, &mut list)?;
    cases(&rt, &list, n)
}
