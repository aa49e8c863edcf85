// A mesh as a graph file.
ghost use Rattle.std.specs.Prelude.{◌≡◌};
ghost use Rattle.dimacs.specs.Says.{read_of, write_told, write_leaves};
ghost use Rattle.shapes.specs.Shapes.{answer_in};
ghost use Rattle.host.specs.Graphs.{graph_in};

use mesh::Mesh;
use shapes::{GustAnswer, GustVerdict};

// `dimacs_write::write`: the value is how many bytes were written.
pub fn gust_write_graph(kind: u64, size: u64, out: &mut [u8]) -> GustAnswer
    ensures value { result ≡ answer_in (write_told kind size out.old) }
    ensures out_after { out.new ≡ write_leaves kind size out.old }
{
    shapes::of_answer(dimacs_write::write(Mesh { kind, size }, out))
}

// `dimacs_read::read`: 0 for yes; the place is the line.
pub fn gust_read_graph(kind: u64, size: u64, text: &[u8]) -> GustVerdict
    ensures { result ≡ graph_in (read_of kind size text.now) }
{
    let verdict = dimacs_read::read(Mesh { kind, size }, text);
    GustVerdict {
        number: answers::number(verdict),
        path: 0,
        place: answers::place(verdict) as u64,
    }
}
