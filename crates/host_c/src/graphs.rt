// The exports of host/src/graphs.rt.
ghost use Rattle.std.specs.Prelude.{◌≡◌};
ghost use Rattle.dimacs.specs.Says.{read_of, write_told, write_leaves};
ghost use Rattle.shapes.specs.Shapes.{answer_in};
ghost use Rattle.host.specs.Graphs.{graph_in};

use shapes::{GustAnswer, GustVerdict};

#[unsafe(no_mangle)]
pub extern "C" fn gust_write_graph(kind: u64, size: u64, out: &mut [u8]) -> GustAnswer
    ensures value { result ≡ answer_in (write_told kind size out.old) }
    ensures out_after { out.new ≡ write_leaves kind size out.old }
{
    host::gust_write_graph(kind, size, out)
}

#[unsafe(no_mangle)]
pub extern "C" fn gust_read_graph(kind: u64, size: u64, text: &[u8]) -> GustVerdict
    ensures { result ≡ graph_in (read_of kind size text.now) }
{
    host::gust_read_graph(kind, size, text)
}
