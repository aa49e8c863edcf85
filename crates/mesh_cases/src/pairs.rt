// A mesh and a pair of its relays: kind, size, source, target, and the places that are lent for a route. A line has the mesh's facts, and one what
// is told of the pair and left in the lent places; of each answer the number, the place and the value.
ghost use Rattle.std.specs.Prelude.{◌≤◌, ◌<◌, length, IfOk};

use mesh::Mesh;
use requests::Facts;
use script::{flag, item, put, put_answer, put_yes_no, text};
use std::io;

fn facts(to: &impl Print, mesh: Mesh) -> io::Result<()> {
    text(to, b"mesh")?;
    put(to, mesh.kind)?;
    put(to, mesh.size)?;
    text(to, b": known")?;
    put(to, flag(mesh.known()))?;
    put_answer(to, b" relays", mesh.relays())?;
    put_answer(to, b" links", mesh.links())?;
    put_answer(to, b" longest", mesh.longest())?;
    put_answer(to, b" places", mesh.places())?;
    text(to, b"\n")
}

// The route into `room` of the lent places, and these with two more as they are afterwards.
fn route(
    to: &impl Print,
    mesh: Mesh,
    source: u64,
    target: u64,
    room: usize,
    out: &mut [u64],
) -> io::Result<()> {
    let n = room.min(out.len());
    let a = mesh::route(mesh, source, target, &mut out[..n]);
    text(to, b" in")?;
    put(to, n as u64)?;
    put_answer(to, b" route", a)?;
    text(to, b" holds")?;
    script::put_first(to, out, n + 2)
}

fn pair(to: &impl Print, mesh: Mesh, source: u64, target: u64, room: usize) -> io::Result<()> {
    text(to, b"from")?;
    put(to, source)?;
    text(to, b" to")?;
    put(to, target)?;
    put_yes_no(to, b": linked", mesh::linked(mesh, source, target))?;
    put_answer(to, b" next", mesh::next_hop(mesh, source, target))?;
    put_answer(to, b" distance", mesh::distance(mesh, source, target))?;
    let mut out = [77u64; 256];
    route(to, mesh, source, target, room, &mut out)?;
    text(to, b"\n")
}

// The case that stands at a place; where the next one stands.
pub fn case(to: &impl Print, list: &[u64], at: usize) -> io::Result<usize>
    requires { at ≤ length list.now }
    ensures { IfOk result (λ next. at < next) }
{
    let mesh = Mesh {
        kind: item(list, at),
        size: item(list, at + 1),
    };
    facts(to, mesh)?;
    pair(
        to,
        mesh,
        item(list, at + 2),
        item(list, at + 3),
        item(list, at + 4) as usize,
    )?;
    Ok(at + 5)
}
