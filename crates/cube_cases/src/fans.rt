// Fans: dimensions, source, doors; the targets, with their number before them; how many places and counts are lent, all 77 before. A line has what was
// asked, the number and the place that came back, and what the slices then hold, with two places more than were lent.
ghost use Rattle.std.specs.Prelude.{◌≤◌, ◌<◌, length, IfOk};

use answers::Refusal;
use cube::Size;
use script::{item, put, put_first, run, text};
use std::io;

// What is asked.
// Stays: a flag beside the doors, since a line has the doors of a plan too, whatever stands there.
#[derive(Clone, Copy)]
struct Request {
    size: Size,
    source: u64,
    doors: u64,
    through: bool,
}

fn put_request(to: &impl Print, r: Request, targets: &[u64]) -> io::Result<()> {
    if r.through {
        text(to, b"through")?;
    } else {
        text(to, b"plan")?;
    }
    put(to, r.size.0)?;
    put(to, r.source)?;
    put(to, r.doors)?;
    text(to, b" to")?;
    put_first(to, targets, targets.len())?;
    text(to, b":")
}

// Number and place.
fn put_checked(to: &impl Print, checked: Result<(), Refusal>) -> io::Result<()> {
    put(to, answers::number(checked))?;
    put(to, answers::place(checked) as u64)
}

fn plan(
    r: Request,
    targets: &[u64],
    places: &mut [u64],
    counts: &mut [u64],
) -> Result<(), Refusal> {
    if r.through {
        return cube_plan::plan_through(r.size, r.source, r.doors, targets, places, counts);
    }
    cube_plan::plan(r.size, r.source, targets, places, counts)
}

// A fan into so many places and counts.
fn ask(
    to: &impl Print,
    r: Request,
    targets: &[u64],
    room: usize,
    counted: usize,
    places: &mut [u64],
    counts: &mut [u64],
) -> io::Result<()> {
    let a = room.min(places.len());
    let b = counted.min(counts.len());
    let shown = a + 2;
    let told = b + 2;
    put_request(to, r, targets)?;
    put_checked(to, plan(r, targets, &mut places[..a], &mut counts[..b]))?;
    text(to, b" places")?;
    put_first(to, places, shown)?;
    text(to, b" counts")?;
    put_first(to, counts, told)?;
    text(to, b"\n")
}

// The case that stands at a place; where the next one stands.
pub fn case(to: &impl Print, list: &[u64], at: usize, through: bool) -> io::Result<usize>
    requires { at ≤ length list.now }
    ensures { IfOk result (λ next. at < next) }
{
    let mut places = [77u64; 64];
    let mut counts = [77u64; 64];
    let r = Request {
        size: Size(item(list, at)),
        source: item(list, at + 1),
        doors: item(list, at + 2),
        through,
    };
    let targets = run(list, at + 3);
    let next = at + 4 + targets.len();
    ask(
        to,
        r,
        targets,
        item(list, next) as usize,
        item(list, next + 1) as usize,
        &mut places,
        &mut counts,
    )?;
    Ok(next + 2)
}
