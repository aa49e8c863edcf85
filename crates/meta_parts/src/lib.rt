// Metacubes: their sizes, a relay's class, and links. Inner: each function but the facts of a size is called by other crates of the library, which
// meet its `requires`; users call `meta`.
#![tactic(auto)]

mod links;
mod sizes;

pub use links::{class_of, joined, near};
pub use requests::Facts;
pub use sizes::{Metacube, class_bits, links_in, longest_in, part_bits, relays_in, span_in};
