// The four columns of the plain function, gathered for as many entries as there is room for.
ghost use Rattle.std.specs.Prelude.{◌≡◌, ◌<◌};
ghost use Rattle.paths.specs.Whole.{failed};
ghost use Rattle.mesh.specs.Kinds.{kind_of};
ghost use Rattle.judge.specs.Says.{fan_asked, bundle_asked};
ghost use Rattle.entries.specs.Gathered.{MOST, capped, taken_of, entry_at, Gathers};

use crate::Entry;
use judge::Fault;
use mesh::Mesh;

// The most entries: no relay has more links.
const MOST: usize = mesh::ANY_LINKS;

// What comes back, how many entries there are to write (none of a refusal or a finding), and their columns.
#[derive(Clone, Copy)]
pub struct Gathered {
    pub tally: Result<u64, Fault>,
    pub k: usize,
    pub ends: [u64; MOST],
    pub hops: [u64; MOST],
    pub wholes: [u64; MOST],
    pub zones: [u32; MOST],
}

impl Gathered {
    // Entry i of the columns.
    pub fn entry(self, i: usize) -> Entry
        requires { i < MOST }
        ensures { result ≡ entry_at self i }
    {
        Entry {
            target: self.ends[i],
            hops: self.hops[i],
            whole: self.wholes[i] == 1,
            zone: self.zones[i],
        }
    }
}

// How many entries a tally comes with, of k paths.
fn taken(tally: Result<u64, Fault>, k: usize) -> usize
    ensures { result ≡ taken_of tally k }
{
    match tally {
        Ok(_) => k,
        Err(_) => 0,
    }
}

// The columns of a fan's paths, and what comes back where there is room for so many entries.
pub fn gather<'b>(
    mesh: Mesh,
    source: u64,
    targets: &'b [u64],
    places: &'b [u64],
    counts: &'b [u64],
    zones: &'b [u32],
    stopped: &'b [u64],
    cuts: &'b [u64],
    room: usize,
) -> Gathered
    ensures { Gathers (fan_asked (kind_of mesh.kind) mesh.size source targets.now) places.now counts.now zones.now (failed stopped.now cuts.now) room result }
{
    let n = room.min(MOST);
    let mut ends = [0u64; MOST];
    let mut hops = [0u64; MOST];
    let mut wholes = [0u64; MOST];
    let mut sites = [0u32; MOST];
    let tally = survivors::survivors(
        mesh,
        source,
        targets,
        places,
        counts,
        zones,
        stopped,
        cuts,
        &mut ends[..n],
        &mut hops[..n],
        &mut wholes[..n],
        &mut sites[..n],
    );
    let k = taken(tally, targets.len());
    Gathered {
        tally,
        k,
        ends,
        hops,
        wholes,
        zones: sites,
    }
}

// Stays: a function beside `gather`. The two differ in the call in their middle, which is lent four columns; a closure over these would ask for a contract longer than the function.
// The columns of a bundle's paths, and what comes back where there is room for so many entries.
pub fn gather_bundle<'b>(
    mesh: Mesh,
    source: u64,
    target: u64,
    places: &'b [u64],
    counts: &'b [u64],
    zones: &'b [u32],
    stopped: &'b [u64],
    cuts: &'b [u64],
    room: usize,
) -> Gathered
    ensures { Gathers (bundle_asked (kind_of mesh.kind) mesh.size source target) places.now counts.now zones.now (failed stopped.now cuts.now) room result }
{
    let n = room.min(MOST);
    let mut ends = [0u64; MOST];
    let mut hops = [0u64; MOST];
    let mut wholes = [0u64; MOST];
    let mut sites = [0u32; MOST];
    let tally = survivors::bundle_survivors(
        mesh,
        source,
        target,
        places,
        counts,
        zones,
        stopped,
        cuts,
        &mut ends[..n],
        &mut hops[..n],
        &mut wholes[..n],
        &mut sites[..n],
    );
    let paths = columns::bundle_paths(mesh);
    let k = taken(tally, paths);
    Gathered {
        tally,
        k,
        ends,
        hops,
        wholes,
        zones: sites,
    }
}
