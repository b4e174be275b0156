//! All operations and functions in one call, and what they left in another; and the names of a code, for the rows that ask for names.
#![tactic(auto)]

mod applied;
mod applying;
mod code_names;
mod errors;
mod functions;
mod names;
mod naming;

pub use applied::Applied;
pub use applying::{again, apply, assign, concatenate};
pub use code_names::CodeNames;
pub use functions::{function_answer, function_outcome};
