// A DIMACS edge file read: whether it is a mesh, with each link once.
#![tactic(auto)]

mod form;
mod links;

pub use links::read;
