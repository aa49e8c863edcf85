// A source and a target: links, next hop, distance, plain route.
ghost use Rattle.std.specs.Prelude.{◌≡◌, true, ◌<◌};
ghost use Rattle.scan.specs.Scan.{pick};
ghost use Rattle.answers.specs.Told.{told, answer_told, yes_no_told};
ghost use Rattle.cube.specs.Cube as cubes;
ghost use Rattle.mesh.specs.Kinds as specs;
ghost use Rattle.mesh.specs.Says.{linked_told, next_told, distance_told, route_told, route_leaves};

use crate::{Mesh, Shape, requested};
use answers::Refusal;
use cube::Size;
use requests::Facts;

// Whether two relays are linked: in the mesh of kind 2 and size 2, 27 and 59 are. Refuses with 1, 2, 5.
pub fn linked(mesh: Mesh, source: u64, target: u64) -> Result<bool, Refusal>
    ensures { yes_no_told result ≡ linked_told (specs.kind_of mesh.kind) mesh.size source target }
{
    match mesh.shape() {
        Some(Shape::Cube(size)) => cube::linked(size, source, target),
        Some(Shape::Two(order)) => two::linked(order, source, target),
        Some(Shape::Meta(size)) => meta::linked(size, source, target),
        None => Err(Refusal::UnknownSize),
    }
}

// The relay after the source on the way to the target, and the relay itself where it is the target: in the mesh of kind 2 and size 2 from 0
// towards 23 it is 4. Refuses with 1, 2, 5.
pub fn next_hop(mesh: Mesh, source: u64, target: u64) -> Result<u64, Refusal>
    ensures { answer_told result ≡ next_told (specs.kind_of mesh.kind) mesh.size source target }
{
    match mesh.shape() {
        Some(Shape::Cube(size)) => cube::next_hop(size, source, target),
        Some(Shape::Two(order)) => two::next_hop(order, source, target),
        Some(Shape::Meta(size)) => meta::next_hop(size, source, target),
        None => Err(Refusal::UnknownSize),
    }
}

// Why a cube has no distances.
fn no_distance(size: Size) -> Result<u64, Refusal>
    ensures { answer_told result ≡ pick (cubes.known size.0) (told 9 0 0) (told 1 0 0) }
{
    size.checked()?;
    Err(Refusal::NoDistance)
}

// The fewest links between two relays, in meshes of kind 2 and sizes 1 to 3: in that of size 1 from 0 to 6 they are 4. Refuses with 1, 52, 9, 2, 5.
pub fn distance(mesh: Mesh, source: u64, target: u64) -> Result<u64, Refusal>
    ensures { answer_told result ≡ distance_told (specs.kind_of mesh.kind) mesh.size source target }
{
    match mesh.shape() {
        Some(Shape::Cube(size)) => no_distance(size),
        Some(Shape::Two(order)) => two_distance::distance(order, source, target),
        _ => Err(requested::unplanned(mesh)),
    }
}

// Writes the plain route from the source to the target from place 0 of `out`, and answers its hops: in the mesh of kind 2 and size 2 from 0 to
// 23 it writes 0, 4, 6, 22, 23 and answers 4. What stands after the route stays. Refuses with 1, 2, 5, 8, and then `out` stays as it was.
pub fn route(mesh: Mesh, source: u64, target: u64, out: &mut [u64]) -> Result<u64, Refusal>
    ensures result_value { answer_told result ≡ route_told (specs.kind_of mesh.kind) mesh.size source target out.old }
    ensures out_after { out.new ≡ route_leaves (specs.kind_of mesh.kind) mesh.size source target out.old }
{
    match mesh.shape() {
        Some(Shape::Cube(size)) => cube::route(size, source, target, out),
        Some(Shape::Two(order)) => two::route(order, source, target, out),
        Some(Shape::Meta(size)) => meta::route(size, source, target, out),
        None => Err(Refusal::UnknownSize),
    }
}

// Whether two numbers are linked relays of a mesh that there is.
pub fn joined(mesh: Mesh, u: u64, v: u64) -> bool
    requires { specs.known mesh.kind mesh.size ≡ true }
    ensures { result ≡ (specs.mesh_of mesh.kind mesh.size).linked u v }
{
    match mesh.shape() {
        Some(Shape::Cube(_)) => cube::differ_in_one(u, v),
        Some(Shape::Two(order)) => two_parts::link(order, u, v),
        Some(Shape::Meta(size)) => meta_parts::joined(size, u, v),
        None => false,
    }
}

// The relay at the other end of link i of a relay, for i below its links: in the mesh of kind 2 and size 2 those of 27 lead to 26, 25 and 59.
pub fn near(mesh: Mesh, u: u64, i: u64) -> u64
    requires size_value { specs.known mesh.kind mesh.size ≡ true }
    requires u_bound { u < (specs.mesh_of mesh.kind mesh.size).relays }
    requires i_bound { i < (specs.mesh_of mesh.kind mesh.size).links }
    ensures { result ≡ (specs.kind_of mesh.kind).near mesh.size u i }
{
    match mesh.shape() {
        Some(Shape::Cube(_)) => bits::flip(u, i as u32),
        Some(Shape::Two(order)) => two_parts::near(order, u, i),
        Some(Shape::Meta(size)) => meta_parts::near(size, u, i),
        None => 0,
    }
}
