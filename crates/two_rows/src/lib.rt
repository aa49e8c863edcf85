// A cube fan in the rows of a grid: 16 rows of 35 places. Inner: the two-level planner meets each `requires`.
#![tactic(auto)]

ghost use Rattle.std.specs.Prelude.{◌≡◌, ℕ};
ghost use Rattle.two_rows.specs.Rows.{Few, Started, Ask, Gives};

use cube_split::Start;

// Begins the row of each member of the set with its target.
fn start_rows(set: u64, to: &[u64; 16], grid: &mut [u64; 560])
    requires { Few set }
    ensures { Started set to.now 0 grid.new }
{
    let mut todo = set;
    while todo != 0 {
        let j = bits::lowest(todo);
        cube_rows::start(grid, 35, j as usize, to[j as usize]);
        todo = bits::flip(todo, j);
    }
}

// Paths from s to the targets of the set, in the dimensions `free`, through doors that are not shut: that of j in row j.
pub fn plan_rows(free: u64, s: u64, shut: u64, set: u64, to: &[u64; 16], grid: &mut [u64; 560])
    requires { Ask free s shut set to.now }
    ensures { Gives free s shut set to.now grid.new }
{
    start_rows(set, to, grid);
    cube_split::plan(Start { free, s, shut }, set, 35, grid);
}
