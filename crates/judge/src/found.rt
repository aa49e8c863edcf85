// The first finding: of a path in the order of the numbers, of the paths in theirs.
ghost use Rattle.std.specs.Prelude.{◌≡◌, ◌+◌, length};
ghost use Rattle.paths.specs.Finding as finding;
ghost use Rattle.judge_rows.specs.Rules.{rules_of};
ghost use Rattle.judge_rows.specs.Needs.{Next};
ghost use Rattle.judge_rows.specs.Looked.{Looked};
ghost use Rattle.judge.specs.Needs.{Lent};
ghost use Rattle.judge.specs.Says.{search_of};

use crate::Finding;
use judge_rows::Rules;

// The first finding of path i, which is to lead from source to target. The relays of the paths before it are marked, and where it is clean its own are too.
fn look(
    rules: Rules,
    source: u64,
    target: u64,
    marks: &mut [u64],
    places: &[u64],
    counts: &[u64],
    i: usize,
) -> Result<(), Finding>
    requires next { Next rules (length places.now) counts.now i }
    requires looked { Looked marks.old rules.width places.now counts.now i 0 }
    ensures result_value { search_of result ≡ finding.finding_of (rules_of rules) source target places.now counts.now i finding.clean }
    ensures looked_2 { search_of result ≡ finding.clean → Looked marks.new rules.width places.now counts.now (i + 1) 0 }
{
    let w = rules.width;
    let h = counts[i] as usize;
    if w <= h {
        return Err(Finding::TooLong(i));
    }
    if judge_rows::relay(w, places, i, 0) != source {
        return Err(Finding::NotFromSource(i));
    }
    if let Some(p) = judge_rows::unlinked_at(rules, places, i, h) {
        return Err(Finding::NotLinked(i, p));
    }
    if judge_rows::relay(w, places, i, h) != target {
        return Err(Finding::NotToTarget(i, h));
    }
    if let Some(p) = judge_rows::seen_at(rules, marks, places, counts, i, h) {
        return Err(Finding::SeenAgain(i, p));
    }
    if let Some(p) = judge_rows::unfilled_at(rules, places, i, h) {
        return Err(Finding::NotFilled(i, p));
    }
    Ok(())
}

// The first finding of a path to each target, where the places and counts hold so many paths.
pub fn first_finding(
    rules: Rules,
    source: u64,
    targets: &[u64],
    places: &[u64],
    counts: &[u64],
) -> Result<(), Finding>
    requires { Lent rules (length targets.now) (length places.now) (length counts.now) }
    ensures { search_of result ≡ finding.finding_by (rules_of rules) source targets.now places.now counts.now }
{
    let mut marks = [0u64; marks::WORDS];
    for (i, target) in targets.iter().enumerate() {
        look(rules, source, *target, &mut marks, places, counts, i)?;
    }
    Ok(())
}
