// What stands against a request: the reasons 2 to 7, in their order; and against two ends: 2, 5, 6.
#![tactic(auto)]

ghost use Rattle.std.specs.Prelude.{◌≡◌};
ghost use Rattle.answers.specs.Told.{against};
ghost use Rattle.answers.specs.Order.{first, pair_faults, end_faults, request_faults, target_faults, first_at, is_out, is_same, is_again};
ghost use Rattle.scan.specs.Scan.{spot_of};

mod facts;
mod ways;

use answers::Refusal;
pub use facts::Facts;
pub use ways::{Hops, Ways};

// The first target that is no relay.
fn out_at(relays: u64, targets: &[u64]) -> Option<usize>
    ensures { spot_of result ≡ first_at targets.now (is_out relays targets.now) }
{
    for (j, target) in targets.iter().enumerate() {
        if relays <= *target {
            return Some(j);
        }
    }
    None
}

// The first target that is the source.
fn same_at(source: u64, targets: &[u64]) -> Option<usize>
    ensures { spot_of result ≡ first_at targets.now (is_same source targets.now) }
{
    for (j, target) in targets.iter().enumerate() {
        if *target == source {
            return Some(j);
        }
    }
    None
}

// The first target that stands earlier in the list.
fn again_at(targets: &[u64]) -> Option<usize>
    ensures { spot_of result ≡ first_at targets.now (is_again targets.now) }
{
    for (j, target) in targets.iter().enumerate() {
        if scan::among(targets, 0, j, *target) {
            return Some(j);
        }
    }
    None
}

// What stands against a list of targets by themselves: 5, 6, 7.
fn targets_checked(relays: u64, source: u64, targets: &[u64]) -> Result<(), Refusal>
    ensures { against result ≡ first (target_faults relays source targets.now) }
{
    if let Some(j) = out_at(relays, targets) {
        return Err(Refusal::TargetOut(j));
    }
    if let Some(j) = same_at(source, targets) {
        return Err(Refusal::TargetIsSource(j));
    }
    if let Some(j) = again_at(targets) {
        return Err(Refusal::TargetAgain(j));
    }
    Ok(())
}

// What stands against a request in a mesh of so many relays, each with so many links: 2, 3, 4, 5, 6, 7.
pub fn request(relays: u64, links: u64, source: u64, targets: &[u64]) -> Result<(), Refusal>
    ensures { against result ≡ first (request_faults relays links source targets.now) }
{
    if relays <= source {
        return Err(Refusal::SourceOut);
    }
    let k = targets.len() as u64;
    if k == 0 {
        return Err(Refusal::NoTarget);
    }
    if links < k {
        return Err(Refusal::TooMany);
    }
    targets_checked(relays, source, targets)
}

// What stands against two ends in a mesh of so many relays: 2, 5. Worked out where it is called, in branches.
#[inline(always)]
pub fn pair(relays: u64, source: u64, target: u64) -> Result<(), Refusal>
    ensures { against result ≡ first (pair_faults relays source target) }
{
    if relays <= source {
        return Err(Refusal::SourceOut);
    }
    if relays <= target {
        return Err(Refusal::TargetOut(0));
    }
    Ok(())
}

// The same of two ends that are to be different: 2, 5, 6.
pub fn ends(relays: u64, source: u64, target: u64) -> Result<(), Refusal>
    ensures { against result ≡ first (end_faults relays source target) }
{
    pair(relays, source, target)?;
    if target == source {
        return Err(Refusal::TargetIsSource(0));
    }
    Ok(())
}
