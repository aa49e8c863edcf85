// A way round: a shortest path between two relays of the two-level mesh, of orders 1 to 3, that avoids every relay that has stopped, or the certainty that there is none.
#![tactic(auto)]

ghost use Rattle.std.specs.Prelude.{◌≡◌, length};
ghost use Rattle.answers.specs.Told.{against};
ghost use Rattle.answers.specs.Order.{first};
ghost use Rattle.std.proofs.Math.Option.{none};
ghost use Rattle.mesh.specs.Kinds.{kind_of, mesh_of};
ghost use Rattle.mesh.specs.Says.{distance_faults_in};
ghost use Rattle.around_search.specs.Avoid.{avoiding};
ghost use Rattle.around.specs.Says.{Rounded, ends_against, round_against, round_short};
ghost use Rattle.around.specs.Needs.{Sound, Lent};

use answers::Refusal;
use mesh::Mesh;
use requests::Facts;

// What stands against a distance: 1, 52, 9, 2, 5. The distance itself is not looked up.
fn far(mesh: Mesh, source: u64, target: u64) -> Result<(), Refusal>
    ensures { against result ≡ first (distance_faults_in (kind_of mesh.kind) mesh.size source target) }
{
    if !mesh.planned() {
        return Err(mesh::unplanned(mesh));
    }
    if mesh.kind == Mesh::CUBE || 3 < mesh.size {
        return Err(Refusal::NoDistance);
    }
    requests::pair(mesh.relays_in(), source, target)
}

// What stands against a way round whatever is lent: what stands against a distance, then 43, 44.
fn checked(mesh: Mesh, source: u64, target: u64, stopped: &[u64]) -> Result<(), Refusal>
    ensures { against result ≡ first (ends_against (kind_of mesh.kind) mesh.size source target stopped.now) }
{
    far(mesh, source, target)?;
    if stopped.contains(&source) {
        return Err(Refusal::SourceStopped);
    }
    if stopped.contains(&target) {
        return Err(Refusal::TargetStopped);
    }
    Ok(())
}

// Searches and writes, where nothing stands against it.
fn sought(
    mesh: Mesh,
    source: u64,
    target: u64,
    stopped: &[u64],
    room: &mut [u64],
    out: &mut [u64],
) -> Result<u64, Refusal>
    requires { Sound mesh.kind mesh.size source target stopped.now × Lent mesh.kind mesh.size (length room.old) (length out.old) }
    ensures { Rounded none (avoiding (mesh_of mesh.kind mesh.size) stopped.now) source target room.old out.old result room.new out.new }
{
    let links = mesh.links_in();
    around_search::start(mesh.relays_in() as usize, target, stopped, room);
    let Some(hops) = around_search::search(mesh, links, source, room) else {
        return Err(Refusal::NoPath);
    };
    around_search::trace(mesh, links, source, hops as usize, room, out);
    Ok(hops)
}

// Writes a shortest path from the source to the target that avoids the relays that have stopped, from place 0 of `out`, and answers its hops: in the mesh of kind 2 and size 1 from 0
// to 5 with 1 stopped it writes 0, 2, 3, 7, 6, 4, 5 and answers 6. What stands after the path stays. The working room and `out` have a place for each relay, else 8; what the room
// holds after a search means nothing. Refuses with 1, 52, 9, 2, 5, 43, 44, 8, and then both stay as they were; with 45 where no path of running relays joins the two, and then `out` does.
pub fn way_round(
    mesh: Mesh,
    source: u64,
    target: u64,
    stopped: &[u64],
    room: &mut [u64],
    out: &mut [u64],
) -> Result<u64, Refusal>
    ensures { Rounded (round_against (kind_of mesh.kind) mesh.size source target stopped.now (round_short (mesh_of mesh.kind mesh.size) (length room.old) (length out.old))) (avoiding (mesh_of mesh.kind mesh.size) stopped.now) source target room.old out.old result room.new out.new }
{
    checked(mesh, source, target, stopped)?;
    let relays = mesh.relays_in() as usize;
    if room.len() < relays || out.len() < relays {
        return Err(Refusal::NoRoom);
    }
    sought(mesh, source, target, stopped, room, out)
}
