// The two calls of the region host, before they are exported: bytes in, bytes out, and number * 256 + place as the answer.
#![tactic(auto)]

mod sheets;

ghost use Rattle.std.specs.Prelude.{◌≡◌, ◌<◌};
ghost use Rattle.std.proofs.Math.Option.{some};
ghost use Rattle.answers.specs.Told.{place};
ghost use Rattle.region.specs.Says.{code_of, Put, Stepped, Planned, plan_code, targets_in};
ghost use Rattle.mesh.specs.Kinds.{kind_of};

use answers::{Reason, Refusal};
use mesh::Mesh;

// A refusal as one number: 5 at place 3 is 1283.
// Stays: here and in `sheets` an answer is a number, since that is what the two calls give to C (`Planned`, `Stepped`).
pub fn code(why: Refusal) -> u64
    requires { place why < 256 }
    ensures { result ≡ code_of (some why) }
{
    why.number() * 256 + (why.place() as u64)
}

// Writes a relay at the front, 8 bytes, where there is room.
fn put_relay(relay: u64, out: &mut [u8]) -> u64
    ensures { Put relay out.old result out.new }
{
    if out.len() < 8 {
        return code(Refusal::NoRoom);
    }
    octets::put_eight(relay, 0, out);
    0
}

// Writes the next hop, 8 bytes big-endian, at the front of `out`; what stands after it stays. In the mesh of kind 2 and size 2 from 0 towards 23 it writes
// seven 00 and 04. Answers 0, or 1, 2, 5 or 8 times 256, and then `out` stays as it was.
pub fn next_hop(mesh: Mesh, source: u64, target: u64, out: &mut [u8]) -> u64
    ensures { Stepped (kind_of mesh.kind) mesh.size source target out.old result out.new }
{
    match mesh::next_hop(mesh, source, target) {
        Ok(relay) => put_relay(relay, out),
        Err(why) => code(why),
    }
}

// Plans a fan and writes its sheet at the front of `out`; what stands after it stays. The targets are numbers of 8 bytes, big-endian. In the cube of 1
// dimension, from 0 to 1, the sheet is that of `sheet_write::write`: 26 bytes. Answers 0, or number * 256 + place, and then `out` stays as it was: 10 where the
// target bytes are no multiple of 8, then 1, 52, 2 to 7, then 37 for a single target in a two-level mesh, then 8 where `out` is shorter than 16 + k * (2 + 8 * longest)
// bytes.
pub fn plan(mesh: Mesh, source: u64, targets: &[u8], out: &mut [u8]) -> u64
    ensures { Planned (plan_code mesh.kind mesh.size source targets.now out.old) mesh.kind mesh.size source (targets_in targets.now) out.old result out.new }
{
    if targets.len() % 8 != 0 {
        return code(Refusal::Unreadable);
    }
    sheets::plan_bytes(mesh, source, targets, out)
}
