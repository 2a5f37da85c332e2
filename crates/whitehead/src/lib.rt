//! The one call that the program makes: from the words of the command line and a source of bytes to a status and a sink.
#![tactic(auto)]

mod arguments;
mod checked_text;
pub mod laws;
mod limits;
mod parsing;
mod program;
mod reply;
mod streams;

pub use arguments::{Arguments, Task, WordsError, read_arguments};
pub use limits::{MOST_WORKERS, STANDING_LIMIT, STANDING_WORKERS};
pub use program::run;
pub use reply::{Reply, reply_to};
pub use streams::{InputError, read_all, write_all};
