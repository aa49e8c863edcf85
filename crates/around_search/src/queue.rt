// The working room of the search, a place for each relay: in its lower half the relay's label, in its upper half an entry of the queue. A relay is queued once at
// most, so that there are places enough.
// Stays: two numbers in one, since the caller lends one number for each relay.
ghost use Rattle.std.specs.Prelude.{◌≡◌, ◌<◌, ◌≤◌, length};
ghost use Rattle.around_search.specs.Room as specs;

const HALF: u64 = 4294967296;

// The label of what has stopped.
const HALT: u64 = 4294967295;

// The label of relay r.
pub fn label(room: &[u64], r: u64) -> u64
    requires { r < length room.now }
    ensures { result ≡ specs.label room.now r }
{
    room[r as usize] % HALF
}

// How many links relay r is from the target, if it has been reached.
pub fn hops(room: &[u64], r: u64) -> Option<u64>
    requires { r < length room.now }
    ensures { specs.label_of result ≡ specs.label room.now r }
{
    label(room, r).checked_sub(1)
}

// Entry i of the queue.
pub fn queued(room: &[u64], i: usize) -> u64
    requires { i < length room.now }
    ensures { result ≡ specs.queued room.now i }
{
    room[i] / HALF
}

// Relay r gets a label, and becomes entry i of the queue.
pub fn enter(r: u64, label: u64, i: usize, room: &mut [u64])
    requires { (r < length room.old) × (r < specs.half) × (label < specs.half) × (i < length room.old) }
    ensures { specs.Entered r label i room.old room.new }
{
    let at = r as usize;
    room[at] = room[at] / HALF * HALF + label;
    room[i] = r * HALF + room[i] % HALF;
}

// The place of relay x is marked as stopped, if there is such a relay.
fn stop(relays: usize, x: u64, room: &mut [u64])
    requires { relays ≤ length room.old }
    ensures { specs.Marked relays x room.old room.new }
{
    if x < relays as u64 {
        room[x as usize] = HALT;
    }
}

// The places of the relays are cleared, and those of the relays that have stopped are marked.
pub fn clear(relays: usize, stopped: &[u64], room: &mut [u64])
    requires { relays ≤ length room.old }
    ensures { specs.Cleared relays stopped.now (length stopped.now) (length room.old) room.new }
{
    scan::fill(room, 0, relays, 0);
    for x in stopped {
        stop(relays, *x, room);
    }
}
