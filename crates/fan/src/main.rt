// The program `fan`: reads a request line from standard input and writes its answer to standard output, as soon as the line end has come.
#![tactic(auto)]

use std::io;

fn main(rt: HostRuntime) -> io::Result<()> {
    let mut text = [0u8; line::MOST_BYTES];
    let mut out = [0u8; reply::ROOM];
    let n = input::read_line(&mut rt.stdin(), &mut text)?.bytes;
    if let Ok(said) = reply::answer(&text[..n], &mut out) {
        rt.write_all(&out[..said as usize])?;
    }
    Ok(())
}
