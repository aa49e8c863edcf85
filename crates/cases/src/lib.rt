// The specification's worked cases that are marked with a star: one theorem, `cases` of specs/Cases.antt. The order of its refusals: one theorem,
// `orders` of specs/Orders.antt.
#![tactic(auto)]
