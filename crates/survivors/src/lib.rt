// Survivors: which paths of a fan or a bundle are whole where relays have stopped and links are cut.
#![tactic(auto)]

mod bundles;
mod zones;

ghost use Rattle.std.specs.Prelude.{◌≡◌, true};
ghost use Rattle.scan.specs.Scan.{pick};
ghost use Rattle.judge.specs.Says.{fan_asked};
ghost use Rattle.paths.specs.Whole.{failed};
ghost use Rattle.mesh.specs.Kinds.{kind_of};
ghost use Rattle.survivors.specs.Says as promise;

pub use bundles::bundle_three;
use judge::Fault;
use mesh::Mesh;
pub use zones::{bundle_survivors, survivors};

// Whether something is lacking, or one of three columns has fewer than k places.
fn few(lacking: bool, k: usize, a: usize, b: usize, c: usize) -> bool
    ensures { result ≡ pick lacking true (promise.few k a b c) }
{
    lacking || a < k || b < k || c < k
}

// The three columns of a fan, for a caller that is lent more, which may be lacking: that is refused 8 too.
pub fn three(
    mesh: Mesh,
    source: u64,
    targets: &[u64],
    places: &[u64],
    counts: &[u64],
    stopped: &[u64],
    cuts: &[u64],
    lacking: bool,
    ends: &mut [u64],
    hops: &mut [u64],
    wholes: &mut [u64],
) -> Result<u64, Fault>
    ensures { promise.Survived lacking (fan_asked (kind_of mesh.kind) mesh.size source targets.now) places.now counts.now (failed stopped.now cuts.now) ends.old hops.old wholes.old result ends.new hops.new wholes.new }
{
    let short = few(lacking, targets.len(), ends.len(), hops.len(), wholes.len());
    judge::judge_with(mesh, source, targets, places, counts, short)?;
    let w = mesh::places_in(mesh) as usize;
    let count = columns::fill(
        w, targets, places, counts, stopped, cuts, ends, hops, wholes,
    );
    Ok(count)
}
