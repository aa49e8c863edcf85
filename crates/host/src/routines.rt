// Facts, links, distance, route, fans, bundles, judge, survivors and sheets over numbers and slices: the library's own routines, and nothing added.
ghost use Rattle.std.specs.Prelude.{◌≡◌, false, length};
ghost use Rattle.mesh.specs.Kinds.{kind_of, mesh_of};
ghost use Rattle.mesh.specs.Says.{linked_told, distance_told, route_told, route_leaves, planned_against, short, bundle_against, bundle_short};
ghost use Rattle.paths.specs.Mesh.{width};
ghost use Rattle.paths.specs.Fan.{Fan};
ghost use Rattle.paths.specs.Bundles.{longer, Bundle};
ghost use Rattle.paths.specs.Whole.{failed};
ghost use Rattle.judge.specs.Says.{judge_told, bundle_told, fan_asked, bundle_asked};
ghost use Rattle.shapes.specs.Shapes as specs;
ghost use Rattle.host.specs.Says.{PlannedIn, SurvivedIn, WroteIn, ReadIn};

use mesh::Mesh;
use requests::Facts;
use shapes::{GustAnswer, GustFacts, GustReading, GustVerdict};

// The facts of a size: of kind 2 and size 3 there are 2,048 relays with 4 links each, the longest path has 42 hops and takes 43 places. Refuses with 1.
pub fn gust_facts(kind: u64, size: u64) -> GustFacts
    ensures { result ≡ specs.facts_in (kind_of kind) size }
{
    shapes::of_facts(Mesh { kind, size })
}

// `mesh::linked`: the value is 1 for yes.
pub fn gust_linked(kind: u64, size: u64, source: u64, target: u64) -> GustAnswer
    ensures { result ≡ specs.yes_no_in (linked_told (kind_of kind) size source target) }
{
    shapes::of_yes_no(mesh::linked(Mesh { kind, size }, source, target))
}

// `mesh::distance`: the value is the distance.
pub fn gust_distance(kind: u64, size: u64, source: u64, target: u64) -> GustAnswer
    ensures { result ≡ specs.answer_in (distance_told (kind_of kind) size source target) }
{
    shapes::of_answer(mesh::distance(Mesh { kind, size }, source, target))
}

// `mesh::route`: the value is the hops.
pub fn gust_route(kind: u64, size: u64, source: u64, target: u64, out: &mut [u64]) -> GustAnswer
    ensures value { result ≡ specs.answer_in (route_told (kind_of kind) size source target out.old) }
    ensures out_after { out.new ≡ route_leaves (kind_of kind) size source target out.old }
{
    shapes::of_answer(mesh::route(Mesh { kind, size }, source, target, out))
}

// `planner::plan`: the value is how many paths.
pub fn gust_fan(
    kind: u64,
    size: u64,
    source: u64,
    targets: &[u64],
    places: &mut [u64],
    counts: &mut [u64],
) -> GustAnswer
    ensures { PlannedIn (planned_against (kind_of kind) size source targets.now (short (mesh_of kind size) (length targets.now) (length places.old) (length counts.old))) (length targets.now) (width (mesh_of kind size)) (Fan (mesh_of kind size) source targets.now) places.old counts.old result places.new counts.new }
{
    let planned = planner::plan(Mesh { kind, size }, source, targets, places, counts);
    shapes::of_checked(planned, targets.len() as u64)
}

// `bundle::plan`: the value is how many paths.
pub fn gust_bundle(
    kind: u64,
    size: u64,
    source: u64,
    target: u64,
    places: &mut [u64],
    counts: &mut [u64],
) -> GustAnswer
    ensures { PlannedIn (bundle_against (kind_of kind) size source target (bundle_short (mesh_of kind size) (length places.old) (length counts.old))) (mesh_of kind size).links (width (longer (mesh_of kind size))) (Bundle (mesh_of kind size) source target) places.old counts.old result places.new counts.new }
{
    let mesh = Mesh { kind, size };
    let planned = bundle::plan(mesh, source, target, places, counts);
    shapes::of_checked(planned, answers::value(mesh.links()))
}

// `judge::judge`.
pub fn gust_judge(
    kind: u64,
    size: u64,
    source: u64,
    targets: &[u64],
    places: &[u64],
    counts: &[u64],
) -> GustVerdict
    ensures { result ≡ specs.verdict_in (judge_told (kind_of kind) size source targets.now places.now counts.now false) }
{
    shapes::of_verdict(judge::judge(Mesh { kind, size }, source, targets, places, counts))
}

// `judge::judge_bundle`.
pub fn gust_judge_bundle(
    kind: u64,
    size: u64,
    source: u64,
    target: u64,
    places: &[u64],
    counts: &[u64],
) -> GustVerdict
    ensures { result ≡ specs.verdict_in (bundle_told (kind_of kind) size source target places.now counts.now false) }
{
    shapes::of_verdict(judge::judge_bundle(Mesh { kind, size }, source, target, places, counts))
}

// `survivors::survivors`: the value is how many paths are whole.
pub fn gust_survivors(
    kind: u64,
    size: u64,
    source: u64,
    targets: &[u64],
    places: &[u64],
    counts: &[u64],
    zones: &[u32],
    stopped: &[u64],
    cuts: &[u64],
    ends: &mut [u64],
    hops: &mut [u64],
    wholes: &mut [u64],
    sites: &mut [u32],
) -> GustAnswer
    ensures { SurvivedIn (fan_asked (kind_of kind) size source targets.now) places.now counts.now zones.now (failed stopped.now cuts.now) ends.old hops.old wholes.old sites.old result ends.new hops.new wholes.new sites.new }
{
    shapes::of_tally(survivors::survivors(
        Mesh { kind, size },
        source,
        targets,
        places,
        counts,
        zones,
        stopped,
        cuts,
        ends,
        hops,
        wholes,
        sites,
    ))
}

// `survivors::bundle_survivors`: the value is how many paths are whole.
pub fn gust_bundle_survivors(
    kind: u64,
    size: u64,
    source: u64,
    target: u64,
    places: &[u64],
    counts: &[u64],
    zones: &[u32],
    stopped: &[u64],
    cuts: &[u64],
    ends: &mut [u64],
    hops: &mut [u64],
    wholes: &mut [u64],
    sites: &mut [u32],
) -> GustAnswer
    ensures { SurvivedIn (bundle_asked (kind_of kind) size source target) places.now counts.now zones.now (failed stopped.now cuts.now) ends.old hops.old wholes.old sites.old result ends.new hops.new wholes.new sites.new }
{
    shapes::of_tally(survivors::bundle_survivors(
        Mesh { kind, size },
        source,
        target,
        places,
        counts,
        zones,
        stopped,
        cuts,
        ends,
        hops,
        wholes,
        sites,
    ))
}

// `sheet_write::write`: the value is how many bytes the sheet takes.
pub fn gust_write_sheet(
    kind: u64,
    size: u64,
    source: u64,
    targets: &[u64],
    places: &[u64],
    counts: &[u64],
    out: &mut [u8],
) -> GustAnswer
    ensures { WroteIn kind size source targets.now places.now counts.now out.old result out.new }
{
    shapes::of_written(sheet_write::write(
        Mesh { kind, size },
        source,
        targets,
        places,
        counts,
        out,
    ))
}

// `sheet_read::read`.
pub fn gust_read_sheet(
    bytes: &[u8],
    places: &mut [u64],
    counts: &mut [u64],
    targets: &mut [u64],
) -> GustReading
    ensures { ReadIn bytes.now places.old counts.old targets.old result places.new counts.new targets.new }
{
    shapes::of_reading(sheet_read::read(bytes, places, counts, targets))
}
