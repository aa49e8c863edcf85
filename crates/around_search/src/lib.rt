// A shortest way in a mesh with some relays stopped, searched for in a room lent for it. Inner: `around` calls it, and meets each `requires`.
#![tactic(auto)]

mod levels;
mod queue;
mod ways;

pub use levels::{search, start};
pub use ways::trace;
