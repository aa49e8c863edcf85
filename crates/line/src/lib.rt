// A request line and its answer as text. `line_read` reads the one, and `line_write` writes the other.
#![tactic(auto)]

use mesh::Mesh;

// The most bytes of a request line, its line end included.
pub const MOST_BYTES: usize = 1024;

// What a line asks for: a fan in a mesh, from a source to so many targets.
#[derive(Clone, Copy)]
pub struct Asked {
    pub mesh: Mesh,
    pub source: u64,
    pub count: usize,
}
