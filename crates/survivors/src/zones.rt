// Survivors with a zone for each path: the fourth column over the three.
ghost use Rattle.std.specs.Prelude.{◌≡◌, length, take};
ghost use Rattle.judge.specs.Says.{fan_asked, bundle_asked};
ghost use Rattle.paths.specs.Whole.{failed};
ghost use Rattle.mesh.specs.Kinds.{kind_of};
ghost use Rattle.columns.specs.Says.{ahead};
ghost use Rattle.survivors.specs.Says as says;
ghost use Rattle.survivors.specs.Zones.{Carried};

use judge::Fault;
use mesh::Mesh;

// Whether there are fewer than k zones, or places for them.
fn scarce(k: usize, zones: usize, sites: usize) -> bool
    ensures { result ≡ says.scarce k zones sites }
{
    zones < k || sites < k
}

// Hands a count on, with the first k zones written at the front of their column; else the column stays.
fn carry(
    tally: Result<u64, Fault>,
    zones: &[u32],
    k: usize,
    sites: &mut [u32],
) -> Result<u64, Fault>
    requires { Carried tally k (length zones.now) (length sites.old) }
    ensures told { result ≡ tally }
    ensures column { sites.new ≡ says.counted tally (ahead k (take k zones.now) sites.old) sites.old }
{
    let count = tally?;
    columns::copy(zones, k, sites);
    Ok(count)
}

// Of a fan from the source to the targets, which paths are whole where the relays in `stopped` have stopped and the links in `cuts` are cut: for each path, in
// the targets' order, its target, its hops, and 1 if it is whole or else 0, in three columns, and its zone, which is lent in, in a fourth; the places of a column after those stay. Answers how many are
// whole. Pair j of `cuts` is places 2j and 2j + 1, in either order; a last number without a partner does nothing, nor does a pair that is no link.
// In the cube of 2 dimensions, of the paths 0, 2, 3 and 0, 1, with relay 2 stopped, the columns hold 3 1, 2 1 and 0 1, and the answer is 1; with the cuts 1, 0
// it is 1 too, and the third column holds 1 0. Too few zones are 8, as too few counts are. Refuses with 1 to 8, or gives the judge's first finding, and then leaves the columns as they were.
pub fn survivors(
    mesh: Mesh,
    source: u64,
    targets: &[u64],
    places: &[u64],
    counts: &[u64],
    zones: &[u32],
    stopped: &[u64],
    cuts: &[u64],
    ends: &mut [u64],
    hops: &mut [u64],
    wholes: &mut [u64],
    sites: &mut [u32],
) -> Result<u64, Fault>
    ensures { says.SurvivedZoned (fan_asked (kind_of mesh.kind) mesh.size source targets.now) places.now counts.now zones.now (failed stopped.now cuts.now) ends.old hops.old wholes.old sites.old result ends.new hops.new wholes.new sites.new }
{
    let k = targets.len();
    let lacking = scarce(k, zones.len(), sites.len());
    let fan = crate::three(
        mesh, source, targets, places, counts, stopped, cuts, lacking, ends, hops, wholes,
    );
    carry(fan, zones, k, sites)
}

// Of a bundle from the source to the target, which paths are whole where the relays in `stopped` have stopped and the links in `cuts`, as in `survivors`, are
// cut: for each path, as many as a relay has links, the target, its hops, and 1 if it is whole or else 0, in three columns, and its zone in a fourth; the places of a column after those
// stay. Answers how many are whole.
// In the cube of 2 dimensions, of the paths 0, 1 and 0, 2, 3, 1, with relay 2 stopped, the columns hold 1 1, 1 3 and 1 0, and the answer is 1. Refuses
// with 1, 52, 2, 5, 6, 8, or gives the judge's first finding, and then leaves the columns as they were.
pub fn bundle_survivors(
    mesh: Mesh,
    source: u64,
    target: u64,
    places: &[u64],
    counts: &[u64],
    zones: &[u32],
    stopped: &[u64],
    cuts: &[u64],
    ends: &mut [u64],
    hops: &mut [u64],
    wholes: &mut [u64],
    sites: &mut [u32],
) -> Result<u64, Fault>
    ensures { says.SurvivedZoned (bundle_asked (kind_of mesh.kind) mesh.size source target) places.now counts.now zones.now (failed stopped.now cuts.now) ends.old hops.old wholes.old sites.old result ends.new hops.new wholes.new sites.new }
{
    let k = columns::bundle_paths(mesh);
    let lacking = scarce(k, zones.len(), sites.len());
    let bundle = crate::bundles::bundle_three(
        mesh, source, target, places, counts, stopped, cuts, lacking, ends, hops, wholes,
    );
    carry(bundle, zones, k, sites)
}
