// The program `graph`: reads a line `cube 3` or `two 2` from standard input and writes that mesh as a DIMACS edge file to standard output, as soon as the line end has come. What is no such line
// is answered `refused 10 0`, a mesh that is not exported `refused N 0`.
#![tactic(auto)]

use answers::Refusal;
use std::io;

// The text of the mesh that a line names, or of why there is none.
fn answer(text: &[u8], out: &mut [u8]) -> Result<u64, Refusal> {
    let written = match graph_line::mesh_named(text) {
        Some(mesh) => dimacs_write::write(mesh, out),
        None => Err(Refusal::Unreadable),
    };
    match written {
        Ok(bytes) => Ok(bytes),
        Err(why) => line_write::write_refusal(why, out),
    }
}

// Writes the first bytes of a slice.
fn say(to: &impl Print, out: &[u8], bytes: u64) -> io::Result<()> {
    match out.get(..bytes as usize) {
        Some(said) => to.write_all(said),
        None => Ok(()),
    }
}

fn main(rt: HostRuntime) -> io::Result<()> {
    let mut text = [0u8; line::MOST_BYTES];
    let mut out = [0u8; dimacs::MOST_BYTES];
    let n = input::read_line(&mut rt.stdin(), &mut text)?.bytes;
    match answer(&text[..n], &mut out) {
        Ok(said) => say(&rt, &out, said),
        Err(_) => Ok(()),
    }
}
