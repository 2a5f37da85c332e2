//! The Whitehead graph of a tuple, its capacities and degrees, and how long a tuple is after a move.
#![tactic(auto)]

mod capacity;
pub mod laws;
mod length_law;
mod set_capacities;
mod whitehead;

pub use capacity::{cap, deg};
pub use length_law::new_length;
pub use set_capacities::{capacity_table, count_sets};
pub use whitehead::graph;
