// What a path and a fan are, over any mesh: definitions and theorems, in specs/ and proofs/.
#![tactic(auto)]

// The filler of an unused place: 2^64 - 1.
pub const FILLER: u64 = 18446744073709551615;
