//! Certificates: answers that were read from a text, judged by rules alone.
#![tactic(auto)]

mod certificate;
mod checked;
mod closure;
mod generators;
mod images;
pub mod laws;
mod levels;
mod presentation;
mod relators;
mod sides;
mod stop;
mod tree;
mod ways;

pub use certificate::check;
pub use checked::{Checked, Rule};
