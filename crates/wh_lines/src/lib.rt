//! Lines of a text and their fields: what is read of any text, whatever its lines tell.
#![tactic(auto)]

mod field;
mod kept_line;
pub mod laws;
mod line;
mod number;
mod read_error;
mod reader;

pub use field::Field;
pub use kept_line::Kept;
pub use number::{canonical_number, print_number, print_number_row};
pub use read_error::ReadError;
pub use reader::{Next, Reader};
