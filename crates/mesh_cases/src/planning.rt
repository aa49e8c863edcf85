// Fans asked of the planner over every kind: kind, size and source; the targets, with their number before them; how many places and counts are lent.
// What is written is what the program `fan` is to print, `fan k` and then each path's hop count and relays, or `refused N P`; and a line with how many of
// all places hold filler, and how many places and counts still hold the 77 from before.
ghost use Rattle.std.specs.Prelude.{◌≤◌, ◌<◌, length, IfOk};

use answers::{Reason, Refusal};
use mesh::Mesh;
use requests::Facts;
use script::{item, put, put_first, run, text};
use std::io;

const HELD: u64 = 77;

// How many of a list are x.
fn count_of(list: &[u64], x: u64) -> u64 {
    list.iter().filter(|y| **y == x).count() as u64
}

// The path that begins at place `at`: its hop count and its relays.
fn put_path(to: &impl Print, places: &[u64], at: usize, hops: u64) -> io::Result<()> {
    print!(to; "{hops}")?;
    let from = at.min(places.len());
    let more = (hops as usize).min(places.len());
    put_first(to, &places[from..], more + 1)?;
    text(to, b"\n")
}

// The first k paths, each in w places.
fn put_paths(
    to: &impl Print,
    places: &[u64],
    counts: &[u64],
    w: usize,
    k: usize,
) -> io::Result<()> {
    let mut at: usize = 0;
    for hops in counts.iter().take(k) {
        put_path(to, places, at, *hops)?;
        at = at.saturating_add(w).min(places.len());
    }
    Ok(())
}

// What came back.
fn put_outcome(
    to: &impl Print,
    planned: Result<(), Refusal>,
    mesh: Mesh,
    k: usize,
    places: &[u64],
    counts: &[u64],
) -> io::Result<()> {
    match planned {
        Ok(()) => {
            text(to, b"fan")?;
            put(to, k as u64)?;
            text(to, b"\n")?;
            put_paths(to, places, counts, mesh.places().unwrap_or(0) as usize, k)
        }
        Err(why) => {
            text(to, b"refused")?;
            put(to, why.number())?;
            put(to, why.place() as u64)?;
            text(to, b"\n")
        }
    }
}

// A fan into so many places and counts.
fn plan(
    mesh: Mesh,
    source: u64,
    targets: &[u64],
    room: usize,
    counted: usize,
    places: &mut [u64],
    counts: &mut [u64],
) -> Result<(), Refusal> {
    let a = room.min(places.len());
    let b = counted.min(counts.len());
    planner::plan(mesh, source, targets, &mut places[..a], &mut counts[..b])
}

fn ask(
    to: &impl Print,
    mesh: Mesh,
    source: u64,
    targets: &[u64],
    room: usize,
    counted: usize,
) -> io::Result<()> {
    let mut places = [HELD; 1300];
    let mut counts = [HELD; 40];
    let planned = plan(
        mesh,
        source,
        targets,
        room,
        counted,
        &mut places,
        &mut counts,
    );
    put_outcome(to, planned, mesh, targets.len(), &places, &counts)?;
    text(to, b"filler")?;
    put(to, count_of(&places, script::FILLER))?;
    text(to, b" held")?;
    put(to, count_of(&places, HELD))?;
    put(to, count_of(&counts, HELD))?;
    text(to, b"\n")
}

// The case that stands at a place; where the next one stands.
pub fn case(to: &impl Print, list: &[u64], at: usize) -> io::Result<usize>
    requires { at ≤ length list.now }
    ensures { IfOk result (λ next. at < next) }
{
    let mesh = Mesh {
        kind: item(list, at),
        size: item(list, at + 1),
    };
    let targets = run(list, at + 3);
    let next = at + 4 + targets.len();
    ask(
        to,
        mesh,
        item(list, at + 2),
        targets,
        item(list, next) as usize,
        item(list, next + 1) as usize,
    )?;
    Ok(next + 2)
}
