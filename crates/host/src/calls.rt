// The two calls of the region host: bytes in, bytes out, and number * 256 + place as the answer.
ghost use Rattle.mesh.specs.Kinds.{kind_of};
ghost use Rattle.region.specs.Says.{Stepped, Planned, plan_code, targets_in};

use mesh::Mesh;

// `region::next_hop`.
pub fn gust_next_hop(kind: u64, size: u64, source: u64, target: u64, out: &mut [u8]) -> u64
    ensures { Stepped (kind_of kind) size source target out.old result out.new }
{
    region::next_hop(Mesh { kind, size }, source, target, out)
}

// `region::plan`.
pub fn gust_plan(kind: u64, size: u64, source: u64, targets: &[u8], out: &mut [u8]) -> u64
    ensures { Planned (plan_code kind size source targets.now out.old) kind size source (targets_in targets.now) out.old result out.new }
{
    region::plan(Mesh { kind, size }, source, targets, out)
}
