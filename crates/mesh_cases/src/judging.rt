// Sets of paths judged, and their survivors told: kind, size and source; then targets, places, counts, stopped relays and cuts, each with its length before
// it; then how many places each of three columns has. A line has what the judge tells (number, path, place), what survivors tells (the same and the
// count), and the columns, all 9 before, as they are afterwards.
ghost use Rattle.std.specs.Prelude.{◌≤◌, ◌<◌, length, IfOk};

use judge::Fault;
use mesh::Mesh;
use script::{item, put, put_first, run, text};
use std::io;

// How many places the columns have.
#[derive(Clone, Copy)]
struct Room {
    ends: usize,
    hops: usize,
    wholes: usize,
}

// Number, path and place of what the judge says, after a name.
fn put_judged<T: Copy>(to: &impl Print, name: &[u8], judged: Result<T, Fault>) -> io::Result<()> {
    text(to, name)?;
    put(to, answers::number(judged))?;
    put(to, answers::path(judged) as u64)?;
    put(to, answers::place(judged) as u64)
}

// The survivors, into a part of each column, and the columns.
fn tell(
    to: &impl Print,
    mesh: Mesh,
    source: u64,
    targets: &[u64],
    places: &[u64],
    counts: &[u64],
    stopped: &[u64],
    cuts: &[u64],
    room: Room,
    ends: &mut [u64],
    hops: &mut [u64],
    wholes: &mut [u64],
) -> io::Result<()> {
    let a = room.ends.min(ends.len());
    let b = room.hops.min(hops.len());
    let c = room.wholes.min(wholes.len());
    let t = survivors::three(
        mesh,
        source,
        targets,
        places,
        counts,
        stopped,
        cuts,
        false,
        &mut ends[..a],
        &mut hops[..b],
        &mut wholes[..c],
    );
    put_judged(to, b" survivors", t)?;
    put(to, t.unwrap_or(0))?;
    text(to, b" targets")?;
    put_first(to, ends, a)?;
    text(to, b" hops")?;
    put_first(to, hops, b)?;
    text(to, b" whole")?;
    put_first(to, wholes, c)
}

fn both(
    to: &impl Print,
    mesh: Mesh,
    source: u64,
    targets: &[u64],
    places: &[u64],
    counts: &[u64],
    stopped: &[u64],
    cuts: &[u64],
    room: Room,
) -> io::Result<()> {
    let mut ends = [9u64; 40];
    let mut hops = [9u64; 40];
    let mut wholes = [9u64; 40];
    put_judged(
        to,
        b"judge",
        judge::judge(mesh, source, targets, places, counts),
    )?;
    tell(
        to,
        mesh,
        source,
        targets,
        places,
        counts,
        stopped,
        cuts,
        room,
        &mut ends,
        &mut hops,
        &mut wholes,
    )?;
    text(to, b"\n")
}

// The case that stands at a place; where the next one stands.
pub fn case(to: &impl Print, list: &[u64], at: usize) -> io::Result<usize>
    requires { at ≤ length list.now }
    ensures { IfOk result (λ next. at < next) }
{
    let mesh = Mesh {
        kind: item(list, at),
        size: item(list, at + 1),
    };
    let targets = run(list, at + 3);
    let b = at + 4 + targets.len();
    let places = run(list, b);
    let c = b + 1 + places.len();
    let counts = run(list, c);
    let d = c + 1 + counts.len();
    let stopped = run(list, d);
    let e = d + 1 + stopped.len();
    let cuts = run(list, e);
    let f = e + 1 + cuts.len();
    let room = Room {
        ends: item(list, f) as usize,
        hops: item(list, f + 1) as usize,
        wholes: item(list, f + 2) as usize,
    };
    both(
        to,
        mesh,
        item(list, at + 2),
        targets,
        places,
        counts,
        stopped,
        cuts,
        room,
    )?;
    Ok(f + 3)
}
