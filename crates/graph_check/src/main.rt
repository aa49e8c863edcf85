// The program `graph_check`: reads a line `cube 3` or `two 2` from standard input, then a DIMACS edge file to the end of the input, and writes `yes` where the file is that mesh with each link once,
// else `refused N P` with the number and the line. What is no such line is answered `refused 10 0`, an input of more than 262,144 bytes `refused 8 0`.
#![tactic(auto)]

use answers::{Reason, Refusal};
use dimacs::Fault;
use std::io;

// The most bytes of the input, its first line included.
const MOST: usize = 262144;

// What stands against the file after the first line, which is to be the mesh that this line names.
fn judged(text: &[u8]) -> Result<(), Fault> {
    if MOST < text.len() {
        return Err(Fault::Refused(Refusal::NoRoom));
    }
    let mesh = graph_line::mesh_named(text).ok_or(Refusal::Unreadable)?;
    let next = dimacs_take::skip(text, 0).ok_or(Refusal::Unreadable)?;
    dimacs_read::read(mesh, &text[next..])
}

fn say(to: &impl Print, judged: Result<(), Fault>) -> io::Result<()> {
    let Err(why) = judged else {
        return to.write_all(b"yes\n");
    };
    // Stays: put_refused writes it, whose contract says the bytes; of what print! writes no contract speaks.
    let mut out = [0u8; 50];
    let n = graph_line::put_refused(why.number(), why.place() as u64, &mut out);
    match out.get(..n) {
        Some(said) => to.write_all(said),
        None => Ok(()),
    }
}

fn main(rt: HostRuntime) -> io::Result<()> {
    let mut text = [0u8; 262145];
    let n = input::read_all(&mut rt.stdin(), &mut text)?.bytes;
    say(&rt, judged(&text[..n]))
}
