// The functions of `plan_calls`, exported under their names and with their clauses: what the tests in C++ call.
#![tactic(auto)]

ghost use Rattle.cube.specs.Cube.{cube};
ghost use Rattle.cube_plan.specs.Says.{plan_against, through_against};
ghost use Rattle.plan_calls.specs.Called.{Called, CalledThrough};

#[unsafe(no_mangle)]
pub extern "C" fn gustparsley_cube_plan(
    n: u64,
    source: u64,
    targets: &[u64],
    places: &mut [u64],
    counts: &mut [u64],
) -> u64
    ensures { Called (plan_against n source targets.now places.old counts.old) (cube n) source targets.now places.old counts.old result places.new counts.new }
{
    plan_calls::gustparsley_cube_plan(n, source, targets, places, counts)
}

#[unsafe(no_mangle)]
pub extern "C" fn gustparsley_cube_plan_through(
    n: u64,
    source: u64,
    doors: u64,
    targets: &[u64],
    places: &mut [u64],
    counts: &mut [u64],
) -> u64
    ensures { CalledThrough (through_against n source doors targets.now places.old counts.old) n source doors targets.now places.old counts.old result places.new counts.new }
{
    plan_calls::gustparsley_cube_plan_through(n, source, doors, targets, places, counts)
}
