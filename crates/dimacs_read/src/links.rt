// The links of a file, marked one by one.
ghost use Rattle.std.specs.Prelude.{◌≡◌, ◌<◌, length};
ghost use Rattle.dimacs.specs.Says.{read_of};
ghost use Rattle.dimacs.specs.Needs.{Exported};
ghost use Rattle.dimacs_size.specs.Sizes.{Rows};
ghost use Rattle.dimacs_read.specs.Turns as turns;

use crate::form::formed;
use dimacs::Fault;
use dimacs_take::Line;
use mesh::Mesh;

// Whether a line is right: an `e` line where it is a link that is not marked, which is marked then; every other.
fn right(mesh: Mesh, relays: u64, links: u64, line: Line, marks: &mut [u16]) -> bool
    requires rows { Rows mesh.kind mesh.size relays links }
    requires marks_len { length marks.old ≡ 2048 }
    ensures { turns.Passes mesh.kind mesh.size line marks.old result marks.new }
{
    match line {
        Line::Link(a, b) => dimacs_marks::mark(mesh, relays, links, a, b, marks),
        _ => true,
    }
}

// The first line that is wrong, from 1.
fn wrong(mesh: Mesh, relays: u64, links: u64, text: &[u8], marks: &mut [u16]) -> Option<usize>
    requires rows { Rows mesh.kind mesh.size relays links }
    requires marks_len { length marks.old ≡ 2048 }
    ensures { turns.Judged mesh.kind mesh.size text.now marks.old result marks.new }
{
    let mut at = 0usize;
    let mut line = 0usize;
    while at < text.len() {
        let (piece, next) = dimacs_take::line_at(text, at)?;
        if !right(mesh, relays, links, piece, marks) {
            return Some(line + 1);
        }
        at = next;
        line += 1;
    }
    None
}

// A file whose counts are right.
fn linked(mesh: Mesh, relays: u64, links: u64, text: &[u8]) -> Result<(), Fault>
    requires { Rows mesh.kind mesh.size relays links }
    ensures { result ≡ turns.links_of mesh.kind mesh.size text.now }
{
    let mut marks = [0u16; 2048];
    if let Some(line) = wrong(mesh, relays, links, text, &mut marks) {
        return Err(Fault::WrongLink(line));
    }
    if dimacs_marks::any_lacking(mesh, relays, links, &marks) {
        return Err(Fault::Missing);
    }
    Ok(())
}

// A file with these counts.
fn counted(mesh: Mesh, n: u64, m: u64, text: &[u8]) -> Result<(), Fault>
    requires { Exported mesh.kind mesh.size }
    ensures { result ≡ turns.counted_of mesh.kind mesh.size n m text.now }
{
    let relays = mesh::relays_in(mesh);
    let links = mesh::links_in(mesh);
    if n != relays || m != relays * links / 2 {
        return Err(Fault::WrongCounts);
    }
    linked(mesh, relays, links, text)
}

// Reads a DIMACS edge file: nothing stands against it where it is the mesh, each link once, in any order and either direction, with comment lines anywhere. Refuses with 1, 52, 46; else with 47 and the first
// malformed line, from 1; 48 where there is no `p` line or its counts are others; 49 and the first `e` line that is no link or stands before; 50 where links are missing.
pub fn read(mesh: Mesh, text: &[u8]) -> Result<(), Fault>
    ensures { result ≡ read_of mesh.kind mesh.size text.now }
{
    dimacs::exported(mesh)?;
    match formed(text) {
        Err(line) => Err(Fault::Malformed(line)),
        Ok(None) => Err(Fault::WrongCounts),
        Ok(Some((n, m))) => counted(mesh, n, m, text),
    }
}
