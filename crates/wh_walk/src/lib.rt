//! The first walk from the root of a level to a tuple.
#![tactic(auto)]

mod first_walk;

pub use first_walk::walk;
