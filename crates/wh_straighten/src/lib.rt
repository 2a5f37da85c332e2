//! Ways round peaks, and straight lists of moves.
#![tactic(auto)]

mod any_cuts;
mod disjoint_cuts;
mod lowering;
mod making;
mod moved_cuts;
mod straightening;

pub use lowering::lower;
pub use straightening::{StraightenError, straighten};
