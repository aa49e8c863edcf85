// A size and a pair of relays: dimensions, source, target, and the places that are lent for a route. A line has the size's facts, and one what is told of
// the pair and left in the lent places; of each answer the number, the place and the value.
ghost use Rattle.std.specs.Prelude.{◌≤◌, ◌<◌, length, IfOk};

use cube::Size;
use requests::Facts;
use script::{flag, item, put, put_answer, put_yes_no, text};
use std::io;

fn facts(to: &impl Print, size: Size) -> io::Result<()> {
    text(to, b"cube")?;
    put(to, size.0)?;
    text(to, b": known")?;
    put(to, flag(size.known()))?;
    put_answer(to, b" relays", size.relays())?;
    put_answer(to, b" links", size.links())?;
    put_answer(to, b" longest", size.longest())?;
    put_answer(to, b" places", size.places())?;
    text(to, b"\n")
}

// The route into `room` of the lent places, and these with two more as they are afterwards.
fn route(
    to: &impl Print,
    size: Size,
    source: u64,
    target: u64,
    room: usize,
    out: &mut [u64],
) -> io::Result<()> {
    let n = room.min(out.len());
    let a = cube::route(size, source, target, &mut out[..n]);
    text(to, b" in")?;
    put(to, n as u64)?;
    put_answer(to, b" route", a)?;
    text(to, b" holds")?;
    script::put_first(to, out, n + 2)
}

fn pair(to: &impl Print, size: Size, source: u64, target: u64, room: usize) -> io::Result<()> {
    text(to, b"from")?;
    put(to, source)?;
    text(to, b" to")?;
    put(to, target)?;
    put_yes_no(to, b": linked", cube::linked(size, source, target))?;
    put_answer(to, b" next", cube::next_hop(size, source, target))?;
    let mut out = [77u64; 64];
    route(to, size, source, target, room, &mut out)?;
    text(to, b"\n")
}

// The case that stands at a place; where the next one stands.
pub fn case(to: &impl Print, list: &[u64], at: usize) -> io::Result<usize>
    requires { at ≤ length list.now }
    ensures { IfOk result (λ next. at < next) }
{
    let size = Size(item(list, at));
    facts(to, size)?;
    pair(
        to,
        size,
        item(list, at + 1),
        item(list, at + 2),
        item(list, at + 3) as usize,
    )?;
    Ok(at + 4)
}
