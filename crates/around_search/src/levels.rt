// The search, breadth first from the target: each relay that is reached gets a label one above that of the relay it is reached from.
ghost use Rattle.std.specs.Prelude.{◌≡◌, List, ℕ, ◌+◌, ◌<◌, ◌≤◌, length};
ghost use Rattle.around_search.specs.Room.{label_of};
ghost use Rattle.around_search.specs.Search.{Sought, Visits, Visited, Starts, Started, Spreads, Searches, Searched};

use crate::queue;
use mesh::Mesh;

// The room made ready, with the target as the first of the queue.
pub fn start(relays: usize, target: u64, stopped: &[u64], lent: &mut [u64])
    requires { Starts relays target (length lent.old) }
    ensures { (kind n links : ℕ) → Started kind n links relays target stopped.now (length lent.old) lent.new }
{
    queue::clear(relays, stopped, lent);
    queue::enter(target, 1, 0, lent);
}

// Relay v is reached: where it has no label it gets this one, and comes to the end of the queue. Returns the queue's end.
fn visit(v: u64, label: u64, tail: usize, lent: &mut [u64]) -> usize
    requires { Visits v label tail lent.old }
    ensures { Visited v label tail lent.old lent.new result }
{
    if queue::label(lent, v) == 0 {
        queue::enter(v, label, tail, lent);
        return tail + 1;
    }
    tail
}

// The links of the relay at the queue's head are followed. Returns the queue's end.
fn spread(mesh: Mesh, links: u64, head: usize, tail: usize, lent: &mut [u64]) -> usize
    requires { (stopped : List ℕ) × (t : ℕ) × Spreads mesh.kind mesh.size links stopped t lent.old head tail }
    ensures { (stopped : List ℕ) (t : ℕ) → Sought mesh.kind mesh.size stopped t lent.old head 0 tail → Sought mesh.kind mesh.size stopped t lent.new (head + 1) 0 result }
{
    let x = queue::queued(lent, head);
    let label = queue::label(lent, x) + 1;
    let mut end = tail;
    for i in 0..links {
        end = visit(mesh::near(mesh, x, i), label, end, lent);
    }
    end
}

// Follows links until the source has a label, or there is none left to follow. Returns the hops from the source, if there is a way.
pub fn search(mesh: Mesh, links: u64, source: u64, lent: &mut [u64]) -> Option<u64>
    requires { (stopped : List ℕ) × (t : ℕ) × Searches mesh.kind mesh.size links source stopped t lent.old }
    ensures { (stopped : List ℕ) (t : ℕ) → Searches mesh.kind mesh.size links source stopped t lent.old → Searched mesh.kind mesh.size source stopped t lent.new (label_of result) }
{
    // Stays: the queue's end moves while it is gone through, so a range would not say it.
    let mut head: usize = 0;
    let mut tail: usize = 1;
    while head < tail {
        let hops = queue::hops(lent, source);
        if hops.is_some() {
            return hops;
        }
        tail = spread(mesh, links, head, tail, lent);
        head += 1;
    }
    queue::hops(lent, source)
}
