// A request line answered: the bytes of a line in, the bytes of its answer out.
#![tactic(auto)]

ghost use Rattle.std.specs.Prelude.{◌≤◌, length};
ghost use Rattle.reply.specs.Laws.{Ruling};
ghost use Rattle.reply.specs.Says.{Answered, reply_room};

use answers::Refusal;
use mesh::Mesh;

// The bytes that are enough for every answer.
pub const ROOM: usize = 32768;

// The answer to a request: the text of a fan, or of what stands against it.
fn request(mesh: Mesh, source: u64, targets: &[u64], out: &mut [u8]) -> Result<u64, Refusal>
    requires { reply_room ≤ length out.old }
    ensures { Ruling mesh.kind mesh.size source targets.now out.old result out.new }
{
    let mut places = [0u64; mesh::MOST_PLACES];
    let mut counts = [0u64; 64];
    match planner::plan(mesh, source, targets, &mut places, &mut counts) {
        Err(why) => line_write::write_refusal(why, out),
        Ok(()) => {
            let w = mesh::places_in(mesh) as usize;
            line_write::write_fan(targets.len(), w, &places, &counts, out)
        }
    }
}

// Answers a request line: `two 1 0 5 1` and a line end by `fan 2`, `6 0 2 3 7 6 4 5` and `1 0 1`, each with a line end, at the front of `out`; how many bytes
// that is comes back. What is no line is answered `refused 10 0`, a request against which something stands `refused N P`, with its number and place.
// Refuses with 8 where there are fewer than `ROOM` bytes, and then changes nothing.
pub fn answer(text: &[u8], out: &mut [u8]) -> Result<u64, Refusal>
    ensures { Answered text.now out.old result out.new }
{
    if out.len() < ROOM {
        return Err(Refusal::NoRoom);
    }
    let mut targets = [0u64; 64];
    match line_read::read(text, &mut targets) {
        Err(why) => line_write::write_refusal(why, out),
        Ok(asked) => request(asked.mesh, asked.source, &targets[..asked.count], out),
    }
}
