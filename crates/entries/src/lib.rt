// Survivors over one lent list of entries: a thin function over the plain one, which fills four columns of numbers.
#![tactic(auto)]

mod gathered;

ghost use Rattle.std.specs.Prelude.{◌≡◌, length};
ghost use Rattle.paths.specs.Whole.{failed};
ghost use Rattle.mesh.specs.Kinds.{kind_of};
ghost use Rattle.judge.specs.Says.{fan_asked, bundle_asked};
ghost use Rattle.entries.specs.Says.{Listed};
ghost use Rattle.entries.specs.Gathered.{stored};
ghost use Rattle.entries.specs.Needs.{Fits};

use gathered::Gathered;
use judge::Fault;
use mesh::Mesh;

// One path of a fan or a bundle: its target, its hops, whether it is whole, and its zone, which is lent in.
#[repr(C)]
#[derive(Clone, Copy)]
pub struct Entry {
    pub target: u64,
    pub hops: u64,
    pub whole: bool,
    pub zone: u32,
}

// Stores the gathered entries at the front of the list, and gives on what comes back. The loop stands here, so that `survivors` and
// `bundle_survivors`, which are lent more, have none.
fn store<'a>(g: Gathered, out: &'a mut [Entry]) -> Result<u64, Fault>
    requires { Fits g (length out.old) }
    ensures { (result ≡ g.tally) × (out.new ≡ stored g out.old) }
{
    for i in 0..g.k {
        out[i] = g.entry(i);
    }
    g.tally
}

// Of a fan from the source to the targets, an entry for each path, in the targets' order, at the front of `out`; the entries after those stay.
// Answers how many are whole. In the cube of 2 dimensions, of the paths 0, 2, 3 and 0, 1, with the zones 7 and 9 and relay 2 stopped, the entries are
// (3, 2, no, 7) and (1, 1, yes, 9), and the answer is 1. Cuts are as in `survivors::survivors`, and too few zones are 8. Refuses with 1 to 8, or gives the judge's first finding, and then leaves `out` as it was.
pub fn survivors<'a, 'b>(
    mesh: Mesh,
    source: u64,
    targets: &'b [u64],
    places: &'b [u64],
    counts: &'b [u64],
    zones: &'b [u32],
    stopped: &'b [u64],
    cuts: &'b [u64],
    out: &'a mut [Entry],
) -> Result<u64, Fault>
    ensures { Listed (fan_asked (kind_of mesh.kind) mesh.size source targets.now) places.now counts.now zones.now (failed stopped.now cuts.now) out.old result out.new }
{
    let g = gathered::gather(
        mesh,
        source,
        targets,
        places,
        counts,
        zones,
        stopped,
        cuts,
        out.len(),
    );
    store(g, out)
}

// Of a bundle from the source to the target, an entry for each path, as many as a relay has links, at the front of `out`; the entries after those stay.
// Answers how many are whole. In the cube of 2 dimensions, of the paths 0, 1 and 0, 2, 3, 1, with the zones 7 and 9 and relay 2 stopped, the entries are
// (1, 1, yes, 7) and (1, 3, no, 9), and the answer is 1. Refuses with 1, 52, 2, 5, 6, 8, or gives the judge's first finding, and then leaves `out` as it was.
pub fn bundle_survivors<'a, 'b>(
    mesh: Mesh,
    source: u64,
    target: u64,
    places: &'b [u64],
    counts: &'b [u64],
    zones: &'b [u32],
    stopped: &'b [u64],
    cuts: &'b [u64],
    out: &'a mut [Entry],
) -> Result<u64, Fault>
    ensures { Listed (bundle_asked (kind_of mesh.kind) mesh.size source target) places.now counts.now zones.now (failed stopped.now cuts.now) out.old result out.new }
{
    let g = gathered::gather_bundle(
        mesh,
        source,
        target,
        places,
        counts,
        zones,
        stopped,
        cuts,
        out.len(),
    );
    store(g, out)
}
