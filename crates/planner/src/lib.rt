// The planner over every kind of mesh: paths from a relay to others that meet nowhere but in it.
#![tactic(auto)]

ghost use Rattle.std.proofs.Math.Option.{none};
ghost use Rattle.std.specs.Prelude.{Ok, length};
ghost use Rattle.mesh.specs.Kinds.{kind_of, mesh_of};
ghost use Rattle.mesh.specs.Says.{planned_against, short};
ghost use Rattle.requests.specs.Planned.{Planned};
ghost use Rattle.planner.specs.Needs.{Layable};

use answers::Refusal;
use mesh::Mesh;

// A fan for a request that was checked, and has room. Inner: who calls it has looked for 1, 52, 2 to 8.
// Stays: the kind is compared, a branch for each kind that has a planner, and the mesh not taken apart by its shape: of a mesh that is planned the end is never reached.
pub fn lay(mesh: Mesh, source: u64, targets: &[u64], places: &mut [u64], counts: &mut [u64])
    requires { Layable mesh.kind mesh.size source targets.now (length places.old) (length counts.old) }
    ensures { Planned none (mesh_of mesh.kind mesh.size) source targets.now places.old counts.old (Ok tt) places.new counts.new }
{
    if mesh.kind == Mesh::CUBE {
        cube_split::fan_through(mesh.size as u32, source, 0, targets, places, counts);
    } else if mesh.kind == Mesh::TWO {
        let w = mesh::places_in(mesh) as usize;
        two_plan::lay(mesh.size as u32, source, targets, w, places, counts);
    }
}

// A fan from the source to the targets, in their order. Path i stands from the place i * W on, where W is `mesh.places()`, source first and 2^64 - 1 in
// the places after its end; its hops stand in the counts at i. In the cube of 2 dimensions, from 0 to 3 and 1, it is 0, 2, 3 and 0, 1: the places
// then hold 0 2 3 F 0 1 F F, where F is 2^64 - 1, and the counts 2 1. Refuses with 1, 52, 2 to 8, and then changes nothing.
pub fn plan(
    mesh: Mesh,
    source: u64,
    targets: &[u64],
    places: &mut [u64],
    counts: &mut [u64],
) -> Result<(), Refusal>
    ensures { Planned (planned_against (kind_of mesh.kind) mesh.size source targets.now (short (mesh_of mesh.kind mesh.size) (length targets.now) (length places.old) (length counts.old))) (mesh_of mesh.kind mesh.size) source targets.now places.old counts.old result places.new counts.new }
{
    mesh::plan_request(mesh, source, targets)?;
    if mesh::short(mesh, targets.len(), places.len(), counts.len()) {
        return Err(Refusal::NoRoom);
    }
    lay(mesh, source, targets, places, counts);
    Ok(())
}
