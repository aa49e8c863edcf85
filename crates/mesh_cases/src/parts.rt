// A pair of the two-level mesh: order, block, slot, block, slot. A line has what is told of it by parts and then by numbers: the source's number, linked,
// next hop, the target as the source sees it, distance, hops; of each the number, the place and the value.
ghost use Rattle.std.specs.Prelude.{◌≤◌, ◌<◌, length, IfOk};

use script::{item, put_answer, put_yes_no, text};
use std::io;
use two::{Block, Order, Slot};

fn by_parts(to: &impl Print, order: Order, b: Block, p: Slot, c: Block, q: Slot) -> io::Result<()> {
    let mut out = [0u64; 256];
    let (source, target) = ((b, p), (c, q));
    put_answer(to, b"parts", two::number(order, b, p))?;
    put_yes_no(to, b" linked", two::linked(order, source, target))?;
    put_answer(to, b" next", two::next_hop(order, source, target))?;
    put_answer(to, b" seen", two::seen(order, source, target))?;
    put_answer(
        to,
        b" distance",
        two_distance::distance(order, source, target),
    )?;
    put_answer(to, b" hops", two::route(order, source, target, &mut out))?;
    text(to, b"\n")
}

// The target as the source sees it, by numbers.
fn by_numbers(to: &impl Print, order: Order, source: u64, target: u64) -> io::Result<()> {
    put_answer(to, b"seen", two::seen(order, source, target))?;
    text(to, b"\n")
}

// The case that stands at a place; where the next one stands.
pub fn case(to: &impl Print, list: &[u64], at: usize) -> io::Result<usize>
    requires { at ≤ length list.now }
    ensures { IfOk result (λ next. at < next) }
{
    let order = Order(item(list, at));
    let b = Block(item(list, at + 1));
    let p = Slot(item(list, at + 2));
    let c = Block(item(list, at + 3));
    let q = Slot(item(list, at + 4));
    by_parts(to, order, b, p, c, q)?;
    by_numbers(
        to,
        order,
        two::number(order, b, p).unwrap_or(0),
        two::number(order, c, q).unwrap_or(0),
    )?;
    Ok(at + 5)
}
