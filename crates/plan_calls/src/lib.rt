// The cube's planners over plain numbers: what the tests in C++ call, exported by `plan_calls_c`. Each call returns the number of the refusal, or 0.
#![tactic(auto)]

ghost use Rattle.cube.specs.Cube.{cube};
ghost use Rattle.cube_plan.specs.Says.{plan_against, through_against};
ghost use Rattle.plan_calls.specs.Called.{Called, CalledThrough};

use cube::Size;

// `cube_plan::plan` in the cube of n dimensions: the cube's planner alone, for its time and its stack.
// Stays: here and below the answer is a number, since that is what the call gives to C (`Called`).
pub fn gustparsley_cube_plan(
    n: u64,
    source: u64,
    targets: &[u64],
    places: &mut [u64],
    counts: &mut [u64],
) -> u64
    ensures { Called (plan_against n source targets.now places.old counts.old) (cube n) source targets.now places.old counts.old result places.new counts.new }
{
    answers::number(cube_plan::plan(Size(n), source, targets, places, counts))
}

// `cube_plan::plan_through` in the cube of n dimensions.
pub fn gustparsley_cube_plan_through(
    n: u64,
    source: u64,
    doors: u64,
    targets: &[u64],
    places: &mut [u64],
    counts: &mut [u64],
) -> u64
    ensures { CalledThrough (through_against n source doors targets.now places.old counts.old) n source doors targets.now places.old counts.old result places.new counts.new }
{
    answers::number(cube_plan::plan_through(Size(n), source, doors, targets, places, counts))
}
