// The exports of host/src/calls.rt.
ghost use Rattle.mesh.specs.Kinds.{kind_of};
ghost use Rattle.region.specs.Says.{Stepped, Planned, plan_code, targets_in};

#[unsafe(no_mangle)]
pub extern "C" fn gust_next_hop(
    kind: u64,
    size: u64,
    source: u64,
    target: u64,
    out: &mut [u8],
) -> u64
    ensures { Stepped (kind_of kind) size source target out.old result out.new }
{
    host::gust_next_hop(kind, size, source, target, out)
}

#[unsafe(no_mangle)]
pub extern "C" fn gust_plan(
    kind: u64,
    size: u64,
    source: u64,
    targets: &[u8],
    out: &mut [u8],
) -> u64
    ensures { Planned (plan_code kind size source targets.now out.old) kind size source (targets_in targets.now) out.old result out.new }
{
    host::gust_plan(kind, size, source, targets, out)
}
