// A way round what has stopped.
ghost use Rattle.std.specs.Prelude.{◌≡◌, length};
ghost use Rattle.mesh.specs.Kinds.{kind_of, mesh_of};
ghost use Rattle.around_search.specs.Avoid.{avoiding};
ghost use Rattle.around.specs.Says.{round_against, round_short};
ghost use Rattle.host.specs.Ways.{RoundedIn};

use mesh::Mesh;
use shapes::GustAnswer;

// `around::way_round`: the value is the hops.
pub fn gust_way_round(
    kind: u64,
    size: u64,
    source: u64,
    target: u64,
    stopped: &[u64],
    room: &mut [u64],
    out: &mut [u64],
) -> GustAnswer
    ensures { RoundedIn (round_against (kind_of kind) size source target stopped.now (round_short (mesh_of kind size) (length room.old) (length out.old))) (avoiding (mesh_of kind size) stopped.now) source target room.old out.old result room.new out.new }
{
    shapes::of_answer(around::way_round(Mesh { kind, size }, source, target, stopped, room, out))
}
