// The judge: the first finding of a set of paths, or that there is none: that it is a fan or, in the other mode, a bundle.
#![tactic(auto)]

mod bundles;
mod found;
mod reasons;

ghost use Rattle.std.specs.Prelude.{◌≡◌, false};
ghost use Rattle.mesh.specs.Kinds.{kind_of};
ghost use Rattle.judge.specs.Says as specs;

pub use answers::Reason;
use answers::Refusal;
pub use bundles::{judge_bundle, judge_bundle_with};
use judge_rows::{Mode, Rules};
use mesh::Mesh;

// What is wrong with a path: its number, counted from 0, and for most findings a place of it.
#[derive(Clone, Copy)]
pub enum Finding {
    // 20: more hops than a path may have.
    TooLong(usize),
    // 21: place 0 is not the source.
    NotFromSource(usize),
    // 22: a relay that is not linked to the one before, or out of range.
    NotLinked(usize, usize),
    // 23: the last relay is not the target.
    NotToTarget(usize, usize),
    // 24: a relay that stands earlier on this path or, the source at place 0 excepted, on an earlier one; of a bundle the target at its end is
    // excepted too, and a second bare link is told at place 1.
    SeenAgain(usize, usize),
    // 25: an unused place that does not hold 2^64 - 1.
    NotFilled(usize, usize),
}

// The first finding, or why what was asked for is refused.
#[derive(Clone, Copy)]
pub enum Fault {
    Found(Finding),
    Refused(Refusal),
}

// The judge, for a caller that is lent slices besides, of which one may be lacking: that is refused 8 too.
pub fn judge_with(
    mesh: Mesh,
    source: u64,
    targets: &[u64],
    places: &[u64],
    counts: &[u64],
    lacking: bool,
) -> Result<(), Fault>
    ensures { specs.verdict_told result ≡ specs.judge_told (kind_of mesh.kind) mesh.size source targets.now places.now counts.now lacking }
{
    mesh::request(mesh, source, targets)?;
    if lacking || mesh::short(mesh, targets.len(), places.len(), counts.len()) {
        return Err(Fault::Refused(Refusal::NoRoom));
    }
    let rules = Rules {
        mesh,
        mode: Mode::Fan,
        width: mesh::places_in(mesh) as usize,
    };
    found::first_finding(rules, source, targets, places, counts)?;
    Ok(())
}

// Whether the places and counts hold a fan from the source to the targets, a path to each in their order, or the first finding. Path i begins
// at place i * W, where W is `mesh.places()`, and its hops stand in the counts at i. In the cube of 2 dimensions, from 0 to 3 and 1, the places
// 0 2 3 F 0 1 F F (F is 2^64 - 1) and the counts 2 1 hold a fan; with 3 for the second 0 the finding is 21 on path 1. Refuses with 1 to 8. What
// lies beyond the paths is not looked at.
pub fn judge(
    mesh: Mesh,
    source: u64,
    targets: &[u64],
    places: &[u64],
    counts: &[u64],
) -> Result<(), Fault>
    ensures { specs.verdict_told result ≡ specs.judge_told (kind_of mesh.kind) mesh.size source targets.now places.now counts.now false }
{
    judge_with(mesh, source, targets, places, counts, false)
}
