//! What the words of the command `icont` ask for.
#![tactic(auto)]

mod command;
mod order;
mod word_laws;
mod words;

pub use word_laws::one_reading;
pub use words::{Run, Task, WordsFault, read_command};
