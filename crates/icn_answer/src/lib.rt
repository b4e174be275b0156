//! What a program answers, and the line of an answer, as a program puts it on its error output.
#![tactic(auto)]

mod answer;
mod lines;
mod refusal;

pub use answer::Answer;
pub use refusal::{own_line, refuse, torn_answer};
