// The paths after the head of a sheet, looked through and then judged.
ghost use Rattle.std.specs.Prelude.{◌≡◌, length};
ghost use Rattle.mesh.specs.Limits.{most_links, most_places};
ghost use Rattle.judge.specs.Says.{fault_told};
ghost use Rattle.sheet.specs.Format.{HEAD, paths_at};
ghost use Rattle.sheet.specs.Says.{flaw_of, reading_told};
ghost use Rattle.sheet_check.specs.Says.{sheet_told, paths_against, ruling_of, ruled, flaw_in};
ghost use Rattle.sheet_check.specs.Needs.{Bodied, Judgeable};

use answers::Refusal;
use judge::{Fault, Finding};
use sheet::{Flaw, Head};

// What the judge has against a sheet, told as a flaw. The source, the targets, the counts and the unused places are made of the sheet itself, so that the judge has nothing
// else to tell of one (`judged_case`): the arms for all else are never reached.
fn flaw_in(fault: Fault) -> Flaw
    ensures { result ≡ flaw_in (fault_told fault) }
{
    match fault {
        Fault::Refused(why) => match why {
            Refusal::SourceOut => Flaw::SourceOut,
            Refusal::TargetOut(place) => Flaw::TargetOut(place),
            Refusal::TargetIsSource(place) => Flaw::TargetIsSource(place),
            Refusal::TargetAgain(place) => Flaw::TargetAgain(place),
            _ => Flaw::NotAFan,
        },
        Fault::Found(finding) => match finding {
            Finding::NotLinked(path, place) => Flaw::NotLinked(path, place),
            Finding::SeenAgain(path, place) => Flaw::SeenAgain(path, place),
            _ => Flaw::NotAFan,
        },
    }
}

// What the judge has against the paths, which were looked through, or against what they are asked for. They are taken into the slices lent for that.
fn judged_in(
    version: u64,
    head: Head,
    longest: usize,
    bytes: &[u8],
    places: &mut [u64],
    counts: &mut [u64],
    targets: &mut [u64],
) -> Result<(), Flaw>
    requires { Judgeable version bytes.now head.mesh.kind head.mesh.size longest head.paths (length places.old) (length counts.old) (length targets.old) }
    ensures { flaw_of result ≡ ruled (ruling_of head.mesh.kind head.mesh.size head.source (paths_at version bytes.now HEAD head.paths)) }
{
    let k = head.paths;
    sheet_take::take_paths(
        version,
        bytes,
        head.source,
        longest,
        k,
        places,
        counts,
        targets,
    );
    let end = k * (longest + 1);
    match judge::judge(
        head.mesh,
        head.source,
        &targets[..k],
        &places[..end],
        &counts[..k],
    ) {
        Ok(()) => Ok(()),
        Err(fault) => Err(flaw_in(fault)),
    }
}

// The same, in room of its own: as much as any mesh wants.
fn judged(version: u64, head: Head, longest: usize, bytes: &[u8]) -> Result<(), Flaw>
    requires { Judgeable version bytes.now head.mesh.kind head.mesh.size longest head.paths most_places most_links most_links }
    ensures { flaw_of result ≡ ruled (ruling_of head.mesh.kind head.mesh.size head.source (paths_at version bytes.now HEAD head.paths)) }
{
    let mut places = [0u64; mesh::MOST_PLACES];
    let mut counts = [0u64; mesh::MOST_LINKS];
    let mut targets = [0u64; mesh::MOST_LINKS];
    judged_in(
        version,
        head,
        longest,
        bytes,
        &mut places,
        &mut counts,
        &mut targets,
    )
}

// The paths after the head of a sheet of that version, which tells of them: what is wrong with their bytes, and then what the judge says of them.
// Stays: the version is a number, as in `sheet::head_bytes`.
pub fn check_paths(version: u64, head: Head, bytes: &[u8]) -> Result<Head, Flaw>
    requires { Bodied version bytes.now head.mesh.kind head.mesh.size head.source head.paths }
    ensures { reading_told result ≡ sheet_told bytes.now (paths_against version bytes.now) }
{
    let longest = mesh::places_in(head.mesh) - 1;
    sheet_take::look(version, longest, bytes, head.paths)?;
    judged(version, head, longest as usize, bytes)?;
    Ok(head)
}
