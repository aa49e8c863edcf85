// A request checked: of paths from a source to a list of targets, and of a bundle between two relays.
ghost use Rattle.std.specs.Prelude.{◌≡◌, true, false, ◌≤◌};
ghost use Rattle.std.proofs.Math.Option.{some};
ghost use Rattle.answers.specs.Told.{against};
ghost use Rattle.answers.specs.Order.{first};
ghost use Rattle.mesh.specs.Kinds as specs;
ghost use Rattle.mesh.specs.Says as says;

use crate::Mesh;
use answers::Refusal;
use requests::Facts;

// What stands against a request whatever is lent for its paths: 1 to 7.
pub fn request(mesh: Mesh, source: u64, targets: &[u64]) -> Result<(), Refusal>
    ensures { against result ≡ says.request_against (specs.kind_of mesh.kind) mesh.size source targets.now false }
{
    mesh.checked()?;
    requests::request(mesh.relays_in(), mesh.links_in(), source, targets)
}

// Why a mesh that is not planned is not served: 1 where there is none, else 52.
pub fn unplanned(mesh: Mesh) -> Refusal
    requires { specs.planned mesh.kind mesh.size ≡ false }
    ensures { some result ≡ first (says.served_faults_in (specs.kind_of mesh.kind) mesh.size) }
{
    if mesh.known() {
        return Refusal::NotServed;
    }
    Refusal::UnknownSize
}

// What stands against a mesh that is to be planned: 1, 52.
pub fn served(mesh: Mesh) -> Result<(), Refusal>
    ensures { against result ≡ first (says.served_faults_in (specs.kind_of mesh.kind) mesh.size) }
{
    if mesh.planned() {
        Ok(())
    } else {
        Err(unplanned(mesh))
    }
}

// What stands against a plan whatever is lent for its paths: 1, 52, 2 to 7.
pub fn plan_request(mesh: Mesh, source: u64, targets: &[u64]) -> Result<(), Refusal>
    ensures { against result ≡ says.planned_against (specs.kind_of mesh.kind) mesh.size source targets.now false }
{
    served(mesh)?;
    requests::request(mesh.relays_in(), mesh.links_in(), source, targets)
}

// Whether so many places and counts are too few for k paths.
pub fn short(mesh: Mesh, k: usize, places: usize, counts: usize) -> bool
    requires { (specs.known mesh.kind mesh.size ≡ true) × (k ≤ (specs.mesh_of mesh.kind mesh.size).links) }
    ensures { result ≡ says.short (specs.mesh_of mesh.kind mesh.size) k places counts }
{
    places < k * (crate::places_in(mesh) as usize) || counts < k
}

// What stands against a bundle between two relays whatever is lent for its paths: 1, 52, 2, 5, 6.
pub fn ends(mesh: Mesh, source: u64, target: u64) -> Result<(), Refusal>
    ensures { against result ≡ says.bundle_against (specs.kind_of mesh.kind) mesh.size source target false }
{
    served(mesh)?;
    requests::ends(mesh.relays_in(), source, target)
}

// Whether so many places and counts are too few for a bundle.
pub fn bundle_short(mesh: Mesh, places: usize, counts: usize) -> bool
    requires { specs.known mesh.kind mesh.size ≡ true }
    ensures { result ≡ says.bundle_short (specs.mesh_of mesh.kind mesh.size) places counts }
{
    let k = mesh.links_in() as usize;
    places < k * (crate::bundle_places_in(mesh) as usize) || counts < k
}
