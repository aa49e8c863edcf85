// A mesh written as a DIMACS edge file.
#![tactic(auto)]

ghost use Rattle.std.specs.Prelude.{◌≡◌, ◌+◌, ◌≤◌, length};
ghost use Rattle.answers.specs.Told.{answer_told};
ghost use Rattle.decimal.specs.Write.{Put};
ghost use Rattle.mesh.specs.Kinds.{mesh_of};
ghost use Rattle.dimacs.specs.Text.{edge, edge_text, edges_text, row, edges, graph_text};
ghost use Rattle.dimacs.specs.Needs.{Exported, Rowed, Linking, link_of};
ghost use Rattle.dimacs.specs.Says.{write_told, write_leaves};
ghost use Rattle.dimacs_size.specs.Sizes.{Rows};

use answers::Refusal;
use mesh::Mesh;

// A line `e 1 2` from a place on; the place after it.
fn put_edge(out: &mut [u8], at: usize, a: u64, b: u64) -> usize
    requires { at + length (edge_text (edge a b)) ≤ length out.old }
    ensures { Put out.old at (edge_text (edge a b)) result out.new }
{
    out[at] = b'e';
    let ends = [a, b];
    line_put::put_line(out, at + 1, &ends)
}

// The line of a link: none where it leads lower.
fn put_link(mesh: Mesh, u: u64, i: u64, out: &mut [u8], at: usize) -> usize
    requires linking { Linking mesh.kind mesh.size u i }
    requires i_in_bounds { at + length (edges_text (link_of mesh.kind mesh.size u i)) ≤ length out.old }
    ensures { Put out.old at (edges_text (link_of mesh.kind mesh.size u i)) result out.new }
{
    let v = mesh::near(mesh, u, i);
    if u < v {
        return put_edge(out, at, u + 1, v + 1);
    }
    at
}

// The lines of a relay.
fn put_row(mesh: Mesh, links: u64, u: u64, out: &mut [u8], at: usize) -> usize
    requires rowed { Rowed mesh.kind mesh.size links u }
    requires u_in_bounds { at + length (edges_text (row (mesh_of mesh.kind mesh.size) u)) ≤ length out.old }
    ensures { Put out.old at (edges_text (row (mesh_of mesh.kind mesh.size) u)) result out.new }
{
    let mut p = at;
    for i in 0..links {
        p = put_link(mesh, u, i, out, p);
    }
    p
}

// The lines of all relays.
fn put_rows(mesh: Mesh, relays: u64, links: u64, out: &mut [u8], at: usize) -> usize
    requires rows { Rows mesh.kind mesh.size relays links }
    requires size_in_bounds { at + length (edges_text (edges (mesh_of mesh.kind mesh.size))) ≤ length out.old }
    ensures { Put out.old at (edges_text (edges (mesh_of mesh.kind mesh.size))) result out.new }
{
    let mut p = at;
    for u in 0..relays {
        p = put_row(mesh, links, u, out, p);
    }
    p
}

// The whole text at the front.
fn put_graph(mesh: Mesh, out: &mut [u8]) -> usize
    requires exported { Exported mesh.kind mesh.size }
    requires size_in_bounds { length (graph_text (mesh_of mesh.kind mesh.size)) ≤ length out.old }
    ensures { Put out.old 0 (graph_text (mesh_of mesh.kind mesh.size)) result out.new }
{
    let relays = mesh::relays_in(mesh);
    let links = mesh::links_in(mesh);
    let counts = [relays, relays * links / 2];
    let p = line_put::put_head(out, b"p edge", &counts);
    put_rows(mesh, relays, links, out, p)
}

// Writes a mesh as a DIMACS edge file at the front of `out`, and answers how many bytes that is: of the mesh of kind 1 and size 2 it is `p edge 4 4`, `e 1 2`, `e 1 3`, `e 2 4` and
// `e 3 4`, each with a line end, and 35. What stands after the text stays. Refuses with 1, 52, 46, and with 8 where `out` is shorter than the text; then `out` stays as it was.
pub fn write(mesh: Mesh, out: &mut [u8]) -> Result<u64, Refusal>
    ensures result_value { answer_told result ≡ write_told mesh.kind mesh.size out.old }
    ensures out_after { out.new ≡ write_leaves mesh.kind mesh.size out.old }
{
    dimacs::exported(mesh)?;
    let bytes = dimacs_size::bytes(mesh);
    if out.len() < bytes {
        return Err(Refusal::NoRoom);
    }
    Ok(put_graph(mesh, out) as u64)
}
