//! Fields that tell words, tuples of words, moves, flows, and what presents a stabiliser: each is read from fields, and
//! printed as fields.
#![tactic(auto)]

mod flow_printing;
mod flow_reading;
pub mod laws;
mod letter;
mod move_printing;
mod move_reading;
mod stabiliser_printing;
mod stabiliser_reading;
mod tuple_printing;
mod tuple_reading;

pub use flow_printing::print_flows;
pub use flow_reading::{FlowLine, read_flow};
pub use letter::{letter_byte, letter_of};
pub use move_printing::print_moves;
pub use move_reading::read_moves;
pub use stabiliser_printing::{print_generator, print_relator, print_tree_edge};
pub use stabiliser_reading::{RelatorLine, TreeEdge, read_generator, read_relator, read_tree_edge};
pub use tuple_printing::print_words;
pub use tuple_reading::read_tuple;
