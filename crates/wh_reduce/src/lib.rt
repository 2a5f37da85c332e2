//! Shortening a tuple by cuts of least capacity until it is flat, and the flows that show that it is.
#![tactic(auto)]

mod generator_flows;
pub mod laws;
mod step;
mod trace;

pub use generator_flows::flows;
pub use step::shorten;
pub use trace::{Trace, reduce};
