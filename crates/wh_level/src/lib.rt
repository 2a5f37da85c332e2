//! Closed levels: all tuples that moves reach from a root without a change of length, with their first walks.
#![tactic(auto)]

mod along_tree;
mod edge_list;
mod first_walks;
mod growing_level;
pub mod laws;
mod level;
mod missing;
mod placing;
mod renumbering;
mod sealing;
mod search;
mod tree_copy;

pub use along_tree::tree_path;
pub use edge_list::{Edge, edge_number, edges, few_edges};
pub use first_walks::Tree;
pub use growing_level::GrowingLevel;
pub use level::Level;
pub use sealing::{Sealed, seal};
pub use tree_copy::tree;
