// As many paths as links between two relays, which meet nowhere but at the two: a fan from the source to the relays linked to the target, and each of its paths
// closed with the target. It is planned in the lent places alone.
#![tactic(auto)]

ghost use Rattle.std.specs.Prelude.{◌≡◌, Ok, ℕ, ◌+◌, ◌*◌, ◌<◌, ◌≤◌, eqb, length, get_or};
ghost use Rattle.std.proofs.Math.Option.{none};
ghost use Rattle.scan.specs.Scan.{pick};
ghost use Rattle.mesh.specs.Kinds.{kind_of, mesh_of};
ghost use Rattle.mesh.specs.Limits.{most_links};
ghost use Rattle.mesh.specs.Says.{bundle_against, bundle_short};
ghost use Rattle.bundle.specs.Says.{Planned};
ghost use Rattle.bundle.specs.Needs.{Layable, Pair};
ghost use Rattle.bundle.specs.Ends.{Chosen};
ghost use Rattle.bundle.specs.Closing.{Closable, Row, Rows, Closed};

use answers::Refusal;
use mesh::Mesh;
use paths::FILLER;

// Where a path ends that is to lead to a relay linked to the target: at the target itself, if that relay is the source.
fn end_of(linked: u64, source: u64, target: u64) -> u64
    ensures { result ≡ pick (eqb linked source) target linked }
{
    if linked == source { target } else { linked }
}

// The ends of the fan's paths, one for each of the target's k links.
fn choose(mesh: Mesh, source: u64, target: u64, k: usize, ends: &mut [u64])
    requires { Pair mesh.kind mesh.size source target k (length ends.old) }
    ensures { Chosen ((kind_of mesh.kind).near mesh.size) source target k ends.new }
{
    for i in 0..k {
        ends[i] = end_of(mesh::near(mesh, target, i as u64), source, target);
    }
}

// A path of the fan, of h hops in w places, moves from `from` to `to`, where it has a place more; the target comes after its end, unless it is its end.
// Returns its hops.
fn close(w: usize, to: usize, from: usize, h: u64, end: u64, target: u64, places: &mut [u64]) -> u64
    requires { Closable w to from h (length places.old) }
    ensures { Row w to from h end target places.old places.new result }
{
    scan::shift(places, to, from, w);
    places[to + w] = FILLER;
    if end == target {
        return h;
    }
    places[to + h as usize + 1] = target;
    h + 1
}

// The fan's k paths, which stand from place k on, become the bundle's.
fn close_all(w: usize, k: usize, ends: &[u64], target: u64, places: &mut [u64], counts: &mut [u64])
    requires { Rows w k (length ends.now) (length places.old) counts.old }
    ensures { Closed w k ends.now target k places.old places.new counts.old counts.new }
{
    for i in 0..k {
        let h = close(
            w,
            i * (w + 1),
            k + i * w,
            counts[i],
            ends[i],
            target,
            places,
        );
        counts[i] = h;
    }
}

// A bundle between two ends that were checked, and has room; the ends of its fan are chosen in a list lent besides.
fn lay_in(
    mesh: Mesh,
    source: u64,
    target: u64,
    ends: &mut [u64],
    places: &mut [u64],
    counts: &mut [u64],
)
    requires { (Layable mesh.kind mesh.size source target (length places.old) (length counts.old)) × (most_links ≤ length ends.old) }
    ensures { Planned none (mesh_of mesh.kind mesh.size) source target places.old counts.old (Ok tt) places.new counts.new }
{
    let k = mesh::links_in(mesh) as usize;
    let w = mesh::places_in(mesh) as usize;
    choose(mesh, source, target, k, ends);
    planner::lay(mesh, source, &ends[..k], &mut places[k..], counts);
    close_all(w, k, ends, target, places, counts);
}

// The same, with the list on the stack: a number for each link.
fn lay(mesh: Mesh, source: u64, target: u64, places: &mut [u64], counts: &mut [u64])
    requires { Layable mesh.kind mesh.size source target (length places.old) (length counts.old) }
    ensures { Planned none (mesh_of mesh.kind mesh.size) source target places.old counts.old (Ok tt) places.new counts.new }
{
    let mut ends = [0u64; mesh::MOST_LINKS];
    lay_in(mesh, source, target, &mut ends, places, counts);
}

// As many paths as a relay has links, from the source to the target, that share nothing but the two. Path i comes by link i of the target. It stands from the
// place i * W on, where W is `mesh.bundle_places()`, source first and 2^64 - 1 in the places after its end; its hops stand in the counts at i. In the cube of 2 dimensions,
// from 0 to 3, they are 0, 2, 3 and 0, 1, 3. Refuses with 1, 52, 2, 5, 6, 8, and then changes nothing.
pub fn plan(
    mesh: Mesh,
    source: u64,
    target: u64,
    places: &mut [u64],
    counts: &mut [u64],
) -> Result<(), Refusal>
    ensures { Planned (bundle_against (kind_of mesh.kind) mesh.size source target (bundle_short (mesh_of mesh.kind mesh.size) (length places.old) (length counts.old))) (mesh_of mesh.kind mesh.size) source target places.old counts.old result places.new counts.new }
{
    mesh::ends(mesh, source, target)?;
    if mesh::bundle_short(mesh, places.len(), counts.len()) {
        return Err(Refusal::NoRoom);
    }
    lay(mesh, source, target, places, counts);
    Ok(())
}
