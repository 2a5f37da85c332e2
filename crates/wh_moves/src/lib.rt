//! Moves of a free group, and how they act on tuples.
#![tactic(auto)]

mod action;
mod image_words;
mod joining;
pub mod laws;
mod letter_images;
mod list_action;
mod move_order;
mod moves;

pub use action::{ActError, act, act_into, acted_length};
pub use image_words::Images;
pub use joining::joined;
pub use letter_images::{image_word, images};
pub use list_action::{act_all, roomy_copy};
pub use moves::{Kind, Move};
