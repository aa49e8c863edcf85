// The line that names a mesh, `cube 3` or `two 2`, and an answer `refused 47 2`. Inner: callers meet each `requires`.
#![tactic(auto)]

ghost use Rattle.std.specs.Prelude.{◌≡◌, ◌≤◌, length};
ghost use Rattle.decimal.specs.Write.{Put};
ghost use Rattle.graph_line.specs.Names as specs;

use mesh::Mesh;

// Reads the line at the front of a text: of `two 2` it is the mesh of kind 2 and size 2. What follows the line end does not matter.
pub fn mesh_named(text: &[u8]) -> Option<Mesh>
    ensures { specs.named_of result ≡ specs.named text.now }
{
    let (kind, at) = line_take::first_word(text)?;
    let mut size = [0u64; 1];
    let count = line_take::all_fields(text, at, &mut size)?;
    if count != 1 {
        return None;
    }
    Some(Mesh {
        kind,
        size: size[0],
    })
}

// Writes `refused 47 2` and a line end at the front, and answers how many bytes that is.
pub fn put_refused(number: u64, place: u64, out: &mut [u8]) -> usize
    requires { 50 ≤ length out.old }
    ensures { Put out.old 0 (specs.refusal number place) result out.new }
{
    let numbers = [number, place];
    line_put::put_head(out, b"refused", &numbers)
}
