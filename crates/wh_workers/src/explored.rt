//! What exploring a level answers.
use wh_level::Level;

/// A level, or that it is too large.
#[derive(Drop)]
pub enum Explored {
    /// The whole level.
    Closed(Level),
    /// The level has more tuples than the limit.
    Passed,
}
