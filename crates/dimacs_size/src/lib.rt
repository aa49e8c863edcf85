// How many bytes the text of a mesh takes. Inner: callers meet each `requires`.
#![tactic(auto)]

ghost use Rattle.std.specs.Prelude.{◌≡◌, length};
ghost use Rattle.decimal.specs.Digits.{digits};
ghost use Rattle.mesh.specs.Kinds.{mesh_of};
ghost use Rattle.dimacs.specs.Text.{edges_text, row, edges, graph_text};
ghost use Rattle.dimacs.specs.Needs.{Exported, Rowed, Linking, link_of};
ghost use Rattle.dimacs_size.specs.Sizes.{Rows};

use mesh::Mesh;

// How many digits a number has: 2048 has 4.
fn width(n: u64) -> usize
    ensures { result ≡ length (digits n) }
{
    let mut rest = n;
    let mut k = 1usize;
    while 10 <= rest {
        rest /= 10;
        k += 1;
    }
    k
}

// The line of a link: none where it leads lower.
fn link_bytes(mesh: Mesh, u: u64, i: u64) -> usize
    requires { Linking mesh.kind mesh.size u i }
    ensures { result ≡ length (edges_text (link_of mesh.kind mesh.size u i)) }
{
    let v = mesh::near(mesh, u, i);
    if u < v {
        return 4 + width(u + 1) + width(v + 1);
    }
    0
}

// The lines of a relay.
fn row_bytes(mesh: Mesh, links: u64, u: u64) -> usize
    requires { Rowed mesh.kind mesh.size links u }
    ensures { result ≡ length (edges_text (row (mesh_of mesh.kind mesh.size) u)) }
{
    let mut sum = 0usize;
    for i in 0..links {
        sum += link_bytes(mesh, u, i);
    }
    sum
}

// The lines of all relays.
fn rows_bytes(mesh: Mesh, relays: u64, links: u64) -> usize
    requires { Rows mesh.kind mesh.size relays links }
    ensures { result ≡ length (edges_text (edges (mesh_of mesh.kind mesh.size))) }
{
    let mut sum = 0usize;
    for u in 0..relays {
        sum += row_bytes(mesh, links, u);
    }
    sum
}

// The whole text: of the mesh of kind 2 and size 3 it takes 44,741 bytes.
pub fn bytes(mesh: Mesh) -> usize
    requires { Exported mesh.kind mesh.size }
    ensures { result ≡ length (graph_text (mesh_of mesh.kind mesh.size)) }
{
    let relays = mesh::relays_in(mesh);
    let links = mesh::links_in(mesh);
    9 + width(relays) + width(relays * links / 2) + rows_bytes(mesh, relays, links)
}
