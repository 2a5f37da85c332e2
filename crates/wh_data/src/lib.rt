//! What is asked and what is answered, as data, and the text of an answer.
#![tactic(auto)]

mod answer;
mod command;
pub mod laws;
mod limits;
mod numbered;
mod presentation_printer;
mod printer;
mod problem;
mod status;

pub use answer::{Answer, Bound, Loop, Parts, Side, StabVerdict, Verdict};
pub use command::{Command, answer_version, is_unchecked_name};
pub use limits::{MOST_ANSWER_BYTES, MOST_GIVEN_MOVES, MOST_PROBLEM_BYTES};
pub use numbered::Numbered;
pub use printer::print_answer;
pub use problem::Problem;
pub use status::Status;
