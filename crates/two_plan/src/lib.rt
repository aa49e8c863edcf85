// The planner of the two-level mesh: paths from a relay to others that meet nowhere but in it.
#![tactic(auto)]

ghost use Rattle.std.specs.Prelude.{◌≡◌, Bool, true, false, ℕ, ◌+◌, ◌*◌, ◌/◌, ◌<◌, ◌≤◌, length, get_or};
ghost use Rattle.two_parts.specs.Two.{two};
ghost use Rattle.two_write.specs.Rows.{Drawn};
ghost use Rattle.two_plan.specs.Home.{Home};
ghost use Rattle.two_plan.specs.Sound.{Asked};
ghost use Rattle.mesh.specs.Kinds.{twos};
ghost use Rattle.mesh.specs.Says.{request_against, short};
ghost use Rattle.requests.specs.Planned.{Planned};

use answers::Refusal;
use mesh::Mesh;
use paths::FILLER;
use two::Order;

// Whether all targets stand in the source's block.
fn all_home(order: Order, source: u64, targets: &[u64]) -> bool
    requires { order.0 ≤ 5 }
    ensures { Home order.0 source targets.now result }
{
    let home = two_parts::block_of(order, source).0;
    targets
        .iter()
        .all(|target| two_parts::block_of(order, *target).0 == home)
}

// Plans a sound request, where there is room. Inner: `planner` calls it for a request that it has checked.
pub fn lay(m: u32, source: u64, targets: &[u64], w: usize, places: &mut [u64], counts: &mut [u64])
    requires { Asked m source w targets.now places.old counts.old }
    ensures { Drawn (two m) source targets.now places.old counts.old places.new counts.new }
{
    scan::fill(places, 0, targets.len() * w, FILLER);
    if m == 1 {
        two_ring::plan(source, targets, places, counts);
        return;
    }
    if targets.len() == m as usize + 1 && all_home(Order(m as u64), source, targets) {
        two_round::plan(m, source, targets, w, places, counts);
        return;
    }
    two_general::general(m, source, targets, w, places, counts);
}

// A fan in the two-level mesh from the source to the targets, in their order. Path i stands from the place i * W on, where W is `order.places()`, source
// first and 2^64 - 1 in the places after its end; its hops stand in the counts at i. In `Order(1)`, from 0 to 5 and 1, it is 0, 2, 3, 7, 6, 4, 5
// and 0, 1.
pub fn plan(
    order: Order,
    source: u64,
    targets: &[u64],
    places: &mut [u64],
    counts: &mut [u64],
) -> Result<(), Refusal>
    ensures { Planned (request_against twos order.0 source targets.now (short (two order.0) (length targets.now) (length places.old) (length counts.old))) (two order.0) source targets.now places.old counts.old result places.new counts.new }
{
    let mesh = Mesh {
        kind: Mesh::TWO,
        size: order.0,
    };
    mesh::request(mesh, source, targets)?;
    if mesh::short(mesh, targets.len(), places.len(), counts.len()) {
        return Err(Refusal::NoRoom);
    }
    lay(
        order.0 as u32,
        source,
        targets,
        mesh::places_in(mesh) as usize,
        places,
        counts,
    );
    Ok(())
}
