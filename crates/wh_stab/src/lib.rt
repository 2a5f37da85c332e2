//! Generators and relators of the automorphisms that fix a tuple.
#![tactic(auto)]

mod generator_lists;
mod generators;
pub mod laws;
mod relators;
mod stab;
mod stabilising;
mod way_numbers;

pub use generator_lists::generator_list;
pub use stab::{Relator, Stab, Stabilised};
pub use stabilising::stabiliser;
