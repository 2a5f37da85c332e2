//! Answers to problems.
#![tactic(auto)]

mod answering;
mod deciding;
mod exploring;
mod finding;
pub mod laws;
mod presenting;
mod side;
mod straightening;

pub use answering::answer;
pub use straightening::straightened;
pub use wh_straighten::StraightenError;
