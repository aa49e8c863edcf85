// A mesh by its kind and size: the facts of a size, links, next hop, distance and plain route over every kind. Kinds meet here and in `planner`.
#![tactic(auto)]

mod pairs;
mod requested;

ghost use Rattle.std.specs.Prelude.{◌≡◌, true};
ghost use Rattle.answers.specs.Told.{answer_told};
ghost use Rattle.paths.specs.Mesh.{width};
ghost use Rattle.paths.specs.Bundles.{longer};
ghost use Rattle.mesh.specs.Kinds as specs;
ghost use Rattle.mesh.specs.Limits.{short-ways};
ghost use Rattle.mesh.specs.Says.{fact_told};
ghost use Rattle.mesh.specs.Shaped.{Shaped};

use answers::Refusal;
use cube::Size;
use meta::Metacube;
pub use pairs::{distance, joined, linked, near, next_hop, route};
pub use requested::{bundle_short, ends, plan_request, request, short, unplanned};
pub use requests::Facts;
use two::Order;

// A kind, 1 the plain cube, 2 the two-level mesh and 3 the metacube, and a size: the dimensions of a cube, the order of a two-level mesh, of a metacube k·64 + m. Every
// two numbers can be asked; what is no mesh is refused by each routine.
#[derive(Clone, Copy)]
pub struct Mesh {
    pub kind: u64,
    pub size: u64,
}

// Of any mesh that there is: the most links of a relay.
pub const ANY_LINKS: usize = 37;

// Of any mesh that is planned: the most links of a relay, places of a path, places of a fan, bytes of a sheet.
pub const MOST_LINKS: usize = 32;

pub const MOST_WIDTH: usize = 207;

pub const MOST_PLACES: usize = 1242;

pub const MOST_BYTES: usize = 9916;

// The size of a mesh by its kind.
#[derive(Clone, Copy)]
pub enum Shape {
    Cube(Size),
    Two(Order),
    Meta(Metacube),
}

impl Mesh {
    pub const CUBE: u64 = 1;

    pub const TWO: u64 = 2;

    pub const META: u64 = 3;

    // The size by the kind, and none where the kind is no kind's number.
    pub fn shape(self) -> Option<Shape>
        ensures { Shaped result self.kind self.size }
    {
        if self.kind == Self::CUBE {
            return Some(Shape::Cube(Size(self.size)));
        }
        if self.kind == Self::TWO {
            return Some(Shape::Two(Order(self.size)));
        }
        if self.kind == Self::META {
            return Some(Shape::Meta(Metacube(self.size)));
        }
        None
    }

    // Whether there is such a mesh, and the planners, distance and sheets serve it: of kinds 1 and 2.
    pub fn planned(self) -> bool
        ensures { result ≡ specs.planned self.kind self.size }
    {
        if self.kind == Self::META {
            return false;
        }
        self.known()
    }

    // The places that a path of a bundle takes: of kind 2 and size 3 it takes 44.
    pub fn bundle_places(self) -> Result<u64, Refusal>
        ensures { answer_told result ≡ fact_told (specs.kind_of self.kind) self.size (width (longer (specs.mesh_of self.kind self.size))) }
    {
        self.checked()?;
        Ok(bundle_places_in(self))
    }
}

// Of kind 2 and size 5 there is a mesh, of size 6 there is none. Of kind 2 and size 3 there are 2,048 relays with 4 links each, the longest path has 42 hops, and
// takes 43 places.
impl Facts for Mesh {
    ghost is_known = { λ m. specs.known m.kind m.size };

    ghost mesh = { λ m. specs.mesh_of m.kind m.size };

    ghost short = { λ m known. short-ways m.kind m.size known };

    fn known(self) -> bool {
        match self.shape() {
            Some(Shape::Cube(size)) => size.known(),
            Some(Shape::Two(order)) => order.known(),
            Some(Shape::Meta(size)) => size.known(),
            None => false,
        }
    }

    fn relays_in(self) -> u64 {
        match self.shape() {
            Some(Shape::Cube(size)) => size.relays_in(),
            Some(Shape::Two(order)) => order.relays_in(),
            Some(Shape::Meta(size)) => size.relays_in(),
            None => 0,
        }
    }

    fn links_in(self) -> u64 {
        match self.shape() {
            Some(Shape::Cube(size)) => size.links_in(),
            Some(Shape::Two(order)) => order.links_in(),
            Some(Shape::Meta(size)) => size.links_in(),
            None => 0,
        }
    }

    fn longest_in(self) -> u64 {
        match self.shape() {
            Some(Shape::Cube(size)) => size.longest_in(),
            Some(Shape::Two(order)) => order.longest_in(),
            Some(Shape::Meta(size)) => size.longest_in(),
            None => 0,
        }
    }
}

// The facts as plain numbers, for callers that know the mesh.
pub fn relays_in(mesh: Mesh) -> u64
    requires { specs.known mesh.kind mesh.size ≡ true }
    ensures { result ≡ (specs.mesh_of mesh.kind mesh.size).relays }
{
    mesh.relays_in()
}

pub fn links_in(mesh: Mesh) -> u64
    requires { specs.known mesh.kind mesh.size ≡ true }
    ensures { result ≡ (specs.mesh_of mesh.kind mesh.size).links }
{
    mesh.links_in()
}

pub fn places_in(mesh: Mesh) -> u64
    requires { specs.known mesh.kind mesh.size ≡ true }
    ensures { result ≡ width (specs.mesh_of mesh.kind mesh.size) }
{
    mesh.longest_in() + 1
}

pub fn bundle_places_in(mesh: Mesh) -> u64
    requires { specs.known mesh.kind mesh.size ≡ true }
    ensures { result ≡ width (longer (specs.mesh_of mesh.kind mesh.size)) }
{
    mesh.longest_in() + 2
}
