// The two-level mesh of orders 1 to 5: its sizes, blocks and slots, links, and the mesh as one of its relays sees it. Inner: each function but the
// facts of an order is called by other crates of the library, which meet its `requires`; users call `two`.
#![tactic(auto)]

mod links;
mod parts;
mod sizes;
mod views;

pub use links::{joined, link, near};
pub use parts::{Block, Slot, block_of, relay_of, slot_of};
pub use requests::Facts;
pub use sizes::{Order, blocks_in, longest_in, relays_in, slots_in};
pub use views::seen_from;
