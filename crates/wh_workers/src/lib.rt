//! Exploring the level of a root.
#![tactic(auto)]

mod explored;
mod one_thread;

pub use explored::Explored;
pub use one_thread::explore_one;
