// Sheets written and read. The writer is asked by kind, size and source; targets, places and counts, each with its length before it; and how many bytes
// are lent. The reader is asked by bytes, with their length before them; and how many places, counts and target places are lent. Lent slices hold 9
// before, bytes 249, and are written whole after what was told.
ghost use Rattle.std.specs.Prelude.{◌≤◌, ◌<◌, length, IfOk};

use mesh::Mesh;
use script::{item, put, put_first, run, text};
use sheet::{Flaw, Head};
use std::io;

// How many places are lent.
#[derive(Clone, Copy)]
struct Room {
    places: usize,
    counts: usize,
    targets: usize,
}

// All bytes of a list, as numbers.
fn put_bytes(to: &impl Print, list: &[u8]) -> io::Result<()> {
    for byte in list {
        put(to, u64::from(*byte))?;
    }
    Ok(())
}

// The writer, into a part of the bytes lent.
fn tell_written(
    to: &impl Print,
    mesh: Mesh,
    source: u64,
    targets: &[u64],
    places: &[u64],
    counts: &[u64],
    room: usize,
    out: &mut [u8],
) -> io::Result<()> {
    let n = room.min(out.len());
    let written = sheet_write::write(mesh, source, targets, places, counts, &mut out[..n]);
    text(to, b"wrote")?;
    put(to, answers::number(written))?;
    put(to, sheet::bytes(written) as u64)?;
    text(to, b" bytes")?;
    put_bytes(to, &out[..n])?;
    text(to, b"\n")
}

fn put_reading(to: &impl Print, read: Result<Head, Flaw>) -> io::Result<()> {
    text(to, b"read")?;
    put(to, answers::number(read))?;
    put(to, answers::path(read) as u64)?;
    put(to, answers::place(read) as u64)?;
    let head = sheet::told(read);
    put(to, head.mesh.kind)?;
    put(to, head.mesh.size)?;
    put(to, head.source)?;
    put(to, head.paths as u64)
}

// The reader, into a part of each slice lent.
fn read_into(
    bytes: &[u8],
    room: Room,
    places: &mut [u64],
    counts: &mut [u64],
    targets: &mut [u64],
) -> Result<Head, Flaw> {
    let a = room.places.min(places.len());
    let b = room.counts.min(counts.len());
    let c = room.targets.min(targets.len());
    sheet_read::read(bytes, &mut places[..a], &mut counts[..b], &mut targets[..c])
}

fn put_named(to: &impl Print, name: &[u8], list: &[u64], n: usize) -> io::Result<()> {
    text(to, name)?;
    put_first(to, list, n)
}

fn tell_read(
    to: &impl Print,
    bytes: &[u8],
    room: Room,
    places: &mut [u64],
    counts: &mut [u64],
    targets: &mut [u64],
) -> io::Result<()> {
    put_reading(to, read_into(bytes, room, places, counts, targets))?;
    put_named(to, b" places", places, room.places)?;
    put_named(to, b" counts", counts, room.counts)?;
    put_named(to, b" targets", targets, room.targets)?;
    text(to, b"\n")
}

// The numbers of a list as bytes, as many as fit.
fn as_bytes(list: &[u64], out: &mut [u8]) -> usize
    ensures { result ≤ length out.new }
{
    for (to, from) in out.iter_mut().zip(list) {
        *to = (*from % 256) as u8;
    }
    list.len().min(out.len())
}

// The writer is asked from the place `at` on; where the next case stands.
pub fn write(to: &impl Print, list: &[u64], at: usize) -> io::Result<usize>
    requires { at ≤ length list.now }
    ensures { IfOk result (λ next. at < next) }
{
    let mut out = [249u8; 16384];
    let mesh = Mesh {
        kind: item(list, at),
        size: item(list, at + 1),
    };
    let targets = run(list, at + 3);
    let b = at + 4 + targets.len();
    let places = run(list, b);
    let c = b + 1 + places.len();
    let counts = run(list, c);
    let d = c + 1 + counts.len();
    tell_written(
        to,
        mesh,
        item(list, at + 2),
        targets,
        places,
        counts,
        item(list, d) as usize,
        &mut out,
    )?;
    Ok(d + 1)
}

// The three numbers from the place `at` on.
fn room_at(list: &[u64], at: usize) -> Room
    requires { at < 18446744073709551614 }
{
    Room {
        places: item(list, at) as usize,
        counts: item(list, at + 1) as usize,
        targets: item(list, at + 2) as usize,
    }
}

// The reader is asked from the place `at` on; where the next case stands.
pub fn read(to: &impl Print, list: &[u64], at: usize) -> io::Result<usize>
    requires { at ≤ length list.now }
    ensures { IfOk result (λ next. at < next) }
{
    let mut bytes = [0u8; 16384];
    let mut places = [9u64; 2048];
    let mut counts = [9u64; 64];
    let mut targets = [9u64; 64];
    let numbers = run(list, at);
    let n = as_bytes(numbers, &mut bytes);
    let e = at + 1 + numbers.len();
    let room = room_at(list, e);
    tell_read(
        to,
        &bytes[..n],
        room,
        &mut places,
        &mut counts,
        &mut targets,
    )?;
    Ok(e + 3)
}
