//! Texts: problems and answers are read from them, or the first refusal with its place, and refusals are printed.
#![tactic(auto)]

mod answer_line;
mod certificate;
pub mod laws;
mod parts_reading;
mod problem_reading;
mod rank_line;
mod refusal;
mod side_reading;
mod trace_reading;
mod verdict_reading;

pub use certificate::read_answer;
pub use problem_reading::read_problem;
pub use refusal::{print_refusal, print_too_long, refused_words};
pub use wh_data::{
    Answer, Bound, Command, MOST_ANSWER_BYTES, MOST_GIVEN_MOVES, MOST_PROBLEM_BYTES, Numbered,
    Problem, Side, Status, Verdict, print_answer,
};
pub use wh_lines::{ReadError, canonical_number};
