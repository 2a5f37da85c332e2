//! Relators of stabilisers: instances of nine families of relations between moves, after McCool 1974 and 1975.
#![tactic(auto)]

mod capacities;
mod counting;
mod cut;
mod ends;
mod family;
mod items;
pub mod laws;
mod listing;
mod mask_tests;
mod pair_tests;
mod retaining;
mod words;

pub use counting::count;
pub use listing::instances;
