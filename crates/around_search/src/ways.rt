// The way written: from the source each hop goes to a relay whose label is one lower.
ghost use Rattle.std.specs.Prelude.{◌≡◌, List, ℕ, ◌<◌, length};
ghost use Rattle.mesh.specs.Kinds.{mesh_of};
ghost use Rattle.around_search.specs.Avoid.{avoiding};
ghost use Rattle.around_search.specs.Trace.{Downs, Down, Traces, Traced};

use crate::queue;
use mesh::Mesh;

// The first relay linked to u that has this label.
fn down(mesh: Mesh, links: u64, u: u64, want: u64, lent: &[u64]) -> u64
    requires { Downs mesh.kind mesh.size links u want lent.now }
    ensures { Down mesh.kind mesh.size links u want lent.now result }
{
    for i in 0..links {
        let v = mesh::near(mesh, u, i);
        if queue::label(lent, v) == want {
            return v;
        }
    }
    u
}

// Writes the way of d hops from the source, whose label is d + 1, from place 0 of `out`.
pub fn trace(mesh: Mesh, links: u64, source: u64, d: usize, lent: &[u64], out: &mut [u64])
    requires { (stopped : List ℕ) × (t : ℕ) × Traces mesh.kind mesh.size links source d stopped t lent.now (length out.old) }
    ensures { (stopped : List ℕ) (t : ℕ) → Traces mesh.kind mesh.size links source d stopped t lent.now (length out.old) → Traced (avoiding (mesh_of mesh.kind mesh.size) stopped) source t d out.old out.new }
{
    out[0] = source;
    let mut at = source;
    for i in 0..d {
        at = down(mesh, links, at, (d - i) as u64, lent);
        out[i + 1] = at;
    }
}
