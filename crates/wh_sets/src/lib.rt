//! Tuples, each once and found by their hash.
#![tactic(auto)]

mod tuple_set;

pub use tuple_set::TupleSet;
