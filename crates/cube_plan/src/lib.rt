// The planners of the cube: paths from a relay to others that meet nowhere but in it.
#![tactic(auto)]

ghost use Rattle.std.specs.Prelude.{◌≡◌, true, ◌+◌, ◌-◌, ◌*◌, ◌^◌, ◌≤◌, leb, ltb};
ghost use Rattle.std.specs.Int.Count.{ones};
ghost use Rattle.scan.specs.Scan.{pick};
ghost use Rattle.answers.specs.Told.{against};
ghost use Rattle.answers.specs.Order.{first};
ghost use Rattle.cube_math.specs.Masks as masks;
ghost use Rattle.cube.specs.Cube.{cube};
ghost use Rattle.requests.specs.Planned.{Planned};
ghost use Rattle.cube_plan.specs.Says.{early_faults, plan_against, through_against, PlannedThrough};
ghost use Rattle.cube_plan.specs.Laying.{Asked, Laid};

use answers::Refusal;
use cube::Size;
use requests::Facts;

// What stands against a request whatever its doors and the slices lent: 1 to 7.
fn request(size: Size, source: u64, targets: &[u64]) -> Result<(), Refusal>
    ensures { against result ≡ first (early_faults size.0 source targets.now) }
{
    size.checked()?;
    requests::request(size.relays_in(), size.links_in(), source, targets)
}

// Whether so many places and counts are too few for k paths.
fn short(n: u64, k: usize, places: usize, counts: usize) -> bool
    requires { (n ≤ 32) × (k ≤ 32) }
    ensures { result ≡ pick (ltb places (k * (n + 2))) true (ltb counts k) }
{
    places < k * (n as usize + 2) || counts < k
}

// Whether the cube does not have these doors, or they are fewer than k.
fn bad_doors(n: u64, doors: u64, k: usize) -> bool
    requires { n ≤ 32 }
    ensures { result ≡ pick (leb (2 ^ n) doors) true (ltb (ones doors) k) }
{
    bits::power(n as u32) <= doors || (doors.count_ones() as usize) < k
}

// The doors of the cube but these.
fn others(n: u64, doors: u64) -> u64
    requires { n ≤ 32 }
    ensures { result ≡ masks.less (2 ^ n - 1) doors }
{
    cube_rows::less(bits::power(n as u32) - 1, doors)
}

// The fan for a request that is sound, through doors that are not shut; refused where there is no room.
fn lay(
    n: u64,
    source: u64,
    shut: u64,
    targets: &[u64],
    places: &mut [u64],
    counts: &mut [u64],
) -> Result<(), Refusal>
    requires { Asked n source shut targets.now }
    ensures { Laid n source shut targets.now places.old counts.old result places.new counts.new }
{
    if short(n, targets.len(), places.len(), counts.len()) {
        return Err(Refusal::NoRoom);
    }
    cube_split::fan_through(n as u32, source, shut, targets, places, counts);
    Ok(())
}

// A fan in a cube from the source to the targets, in their order. In the cube of n dimensions path i stands from the place i * (n + 2) on, source
// first and 2^64 - 1 in the places after its end; its hops stand in the counts at i. In `Size(2)`, from 0 to 3 and 1, it is 0, 2, 3 and 0, 1: the
// places then hold 0 2 3 F 0 1 F F, where F is 2^64 - 1, and the counts 2 1.
pub fn plan(
    size: Size,
    source: u64,
    targets: &[u64],
    places: &mut [u64],
    counts: &mut [u64],
) -> Result<(), Refusal>
    ensures { Planned (plan_against size.0 source targets.now places.old counts.old) (cube size.0) source targets.now places.old counts.old result places.new counts.new }
{
    request(size, source, targets)?;
    lay(size.0, source, 0, targets, places, counts)
}

// The same through doors: bit i of `doors` says that a path may leave the source by its link i. No path meets a neighbour of the source behind a
// shut door but as its own end. There must be as many doors as targets: through the doors 2 (link 1 alone) the path from 0 to 1 in `Size(2)` is
// 0, 2, 3, 1.
pub fn plan_through(
    size: Size,
    source: u64,
    doors: u64,
    targets: &[u64],
    places: &mut [u64],
    counts: &mut [u64],
) -> Result<(), Refusal>
    ensures { PlannedThrough (through_against size.0 source doors targets.now places.old counts.old) size.0 source doors targets.now places.old counts.old result places.new counts.new }
{
    request(size, source, targets)?;
    if bad_doors(size.0, doors, targets.len()) {
        return Err(Refusal::BadDoors);
    }
    let shut = others(size.0, doors);
    lay(size.0, source, shut, targets, places, counts)
}
