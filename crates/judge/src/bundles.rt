// The judge's second mode: a bundle between two relays.
ghost use Rattle.std.specs.Prelude.{◌≡◌, false};
ghost use Rattle.mesh.specs.Kinds.{kind_of};
ghost use Rattle.judge.specs.Says as specs;

use crate::{Fault, found};
use answers::Refusal;
use judge_rows::{Mode, Rules};
use mesh::Mesh;

// Stays: a function beside `judge_with`. What the two share is `first_finding`; what is checked, the room, the width and the targets are asked of the mesh by other calls.
// The judge of bundles, for a caller that is lent slices besides, of which one may be lacking: that is refused 8 too.
pub fn judge_bundle_with(
    mesh: Mesh,
    source: u64,
    target: u64,
    places: &[u64],
    counts: &[u64],
    lacking: bool,
) -> Result<(), Fault>
    ensures { specs.verdict_told result ≡ specs.bundle_told (kind_of mesh.kind) mesh.size source target places.now counts.now lacking }
{
    mesh::ends(mesh, source, target)?;
    if lacking || mesh::bundle_short(mesh, places.len(), counts.len()) {
        return Err(Fault::Refused(Refusal::NoRoom));
    }
    let rules = Rules {
        mesh,
        mode: Mode::Bundle,
        width: mesh::bundle_places_in(mesh) as usize,
    };
    let k = mesh::links_in(mesh) as usize;
    let targets = [target; mesh::MOST_LINKS];
    found::first_finding(rules, source, &targets[..k], places, counts)?;
    Ok(())
}

// Whether the places and counts hold a bundle from the source to the target, a path for each link, or the first finding. Path i begins at place i * W,
// where W is `mesh.bundle_places()`, and its hops stand in the counts at i. In the cube of 2 dimensions, from 0 to 1, the places 0 1 F F F 0 2 3 1 F
// (F is 2^64 - 1) and the counts 1 3 hold a bundle; with the path 0 1 twice the finding is 24 on path 1 at place 1. Refuses with 1, 52, 2, 5, 6, 8. What
// lies beyond the paths is not looked at.
pub fn judge_bundle(
    mesh: Mesh,
    source: u64,
    target: u64,
    places: &[u64],
    counts: &[u64],
) -> Result<(), Fault>
    ensures { specs.verdict_told result ≡ specs.bundle_told (kind_of mesh.kind) mesh.size source target places.now counts.now false }
{
    judge_bundle_with(mesh, source, target, places, counts, false)
}
