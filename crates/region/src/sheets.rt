// A fan planned in room of its own and written as a sheet.
ghost use Rattle.std.specs.Prelude.{◌≡◌, true, ◌≤◌, length};
ghost use Rattle.mesh.specs.Kinds.{known, mesh_of};
ghost use Rattle.region.specs.Says.{most, Answered, Planned, list_code, plan_code, targets_in};
ghost use Rattle.region.specs.Needs.{Layable, Sound, Whole, few, Lent};

use crate::code;
use answers::{Reason, Refusal};
use mesh::Mesh;
use sheet::{Flaw, Head};

// The bytes that a sheet of k paths takes at most: of two paths in the cube of 2 dimensions 68.
fn most_bytes(mesh: Mesh, k: usize) -> usize
    requires { (known mesh.kind mesh.size ≡ true) × (k ≤ (mesh_of mesh.kind mesh.size).links) }
    ensures { result ≡ most (mesh_of mesh.kind mesh.size) k }
{
    let longest = (mesh::places_in(mesh) - 1) as usize;
    16 + k * (2 + 8 * longest)
}

// Plans a fan in the places and counts, and writes its sheet at the front of `out`.
fn lay(
    mesh: Mesh,
    source: u64,
    targets: &[u64],
    places: &mut [u64],
    counts: &mut [u64],
    out: &mut [u8],
)
    requires { Layable mesh.kind mesh.size source targets.now (length places.old) (length counts.old) (length out.old) }
    ensures { Answered mesh.kind mesh.size source targets.now out.old out.new }
{
    planner::lay(mesh, source, targets, places, counts);
    let head = Head {
        mesh,
        source,
        paths: targets.len(),
    };
    let _written = sheet_write::put_sheet(head, places, counts, out);
}

// The same in room of its own, which is cleared first: where the paths take few places it is small, so that clearing it takes little beside planning them. All that order 3
// can ask for is 172 places, order 4 465, order 5 1,242; a cube 1,088.
fn lay_alone(mesh: Mesh, source: u64, targets: &[u64], out: &mut [u8])
    requires { Sound mesh.kind mesh.size source targets.now (length out.old) }
    ensures { Answered mesh.kind mesh.size source targets.now out.old out.new }
{
    let taken = targets.len() * (mesh::places_in(mesh) as usize);
    let mut counts = [0u64; mesh::MOST_LINKS];
    if taken <= 172 {
        let mut few = [0u64; 172];
        lay(mesh, source, targets, &mut few, &mut counts, out);
        return;
    }
    if taken <= 465 {
        let mut some = [0u64; 465];
        lay(mesh, source, targets, &mut some, &mut counts, out);
        return;
    }
    let mut most = [0u64; mesh::MOST_PLACES];
    lay(mesh, source, targets, &mut most, &mut counts, out);
}

// The same, where nothing stands against it.
fn plan_list(mesh: Mesh, source: u64, targets: &[u64], out: &mut [u8]) -> u64
    ensures { Planned (list_code mesh.kind mesh.size source targets.now out.old) mesh.kind mesh.size source targets.now out.old result out.new }
{
    if let Err(why) = mesh::plan_request(mesh, source, targets) {
        return code(why);
    }
    if sheet::lone(mesh.kind, targets.len()) {
        return Flaw::Lone.number() * 256;
    }
    if out.len() < most_bytes(mesh, targets.len()) {
        return code(Refusal::NoRoom);
    }
    lay_alone(mesh, source, targets, out);
    0
}

// How many targets are looked at: no relay of a mesh that is planned has more than 32 links, so that what is said of 33 targets is said of more.
fn looked_at(n: usize) -> usize
    ensures { result ≡ few n }
{
    n.min(33)
}

// Takes the targets out of their bytes into the list, and plans.
fn plan_in(mesh: Mesh, source: u64, bytes: &[u8], list: &mut [u64], out: &mut [u8]) -> u64
    requires { Lent bytes.now (length list.old) }
    ensures { Planned (plan_code mesh.kind mesh.size source bytes.now out.old) mesh.kind mesh.size source (targets_in bytes.now) out.old result out.new }
{
    let k = looked_at(bytes.len() / 8);
    sheet_take::take_relays(bytes, 0, k, 0, list);
    plan_list(mesh, source, &list[..k], out)
}

// The same with a list of its own.
pub fn plan_bytes(mesh: Mesh, source: u64, bytes: &[u8], out: &mut [u8]) -> u64
    requires { Whole bytes.now }
    ensures { Planned (plan_code mesh.kind mesh.size source bytes.now out.old) mesh.kind mesh.size source (targets_in bytes.now) out.old result out.new }
{
    let mut list = [0u64; 33];
    plan_in(mesh, source, bytes, &mut list, out)
}
