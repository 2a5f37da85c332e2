//! The level moves of a tuple.
#![tactic(auto)]

mod cuts;
mod row;
mod turned;

pub use row::{Row, level_moves, own_level_moves};
pub use turned::is_turned_cut;
