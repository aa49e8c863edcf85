// Survivors' second mode: a bundle between two relays.
ghost use Rattle.judge.specs.Says.{bundle_asked};
ghost use Rattle.paths.specs.Whole.{failed};
ghost use Rattle.mesh.specs.Kinds.{kind_of};
ghost use Rattle.survivors.specs.Says.{Survived};

use judge::Fault;
use mesh::Mesh;

// Stays: a function beside `three`. What the two share is `few` and `columns::fill`; the judge, the width, and the targets, which stand in an array here, are others.
// The three columns of a bundle, for a caller that is lent more, which may be lacking.
pub fn bundle_three(
    mesh: Mesh,
    source: u64,
    target: u64,
    places: &[u64],
    counts: &[u64],
    stopped: &[u64],
    cuts: &[u64],
    lacking: bool,
    ends: &mut [u64],
    hops: &mut [u64],
    wholes: &mut [u64],
) -> Result<u64, Fault>
    ensures { Survived lacking (bundle_asked (kind_of mesh.kind) mesh.size source target) places.now counts.now (failed stopped.now cuts.now) ends.old hops.old wholes.old result ends.new hops.new wholes.new }
{
    let k = columns::bundle_paths(mesh);
    let short = crate::few(lacking, k, ends.len(), hops.len(), wholes.len());
    judge::judge_bundle_with(mesh, source, target, places, counts, short)?;
    let w = mesh::bundle_places_in(mesh) as usize;
    let targets = [target; mesh::MOST_LINKS];
    Ok(columns::fill(
        w,
        &targets[..k],
        places,
        counts,
        stopped,
        cuts,
        ends,
        hops,
        wholes,
    ))
}
