// Decimal numerals as text: a number written, and one read. Inner: callers meet each `requires`.
#![tactic(auto)]

mod reading;
mod writing;

pub use reading::read;
pub use writing::put;
