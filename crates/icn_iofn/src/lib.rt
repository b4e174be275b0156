//! The functions that read, write and end the program.
#![tactic(auto)]

mod arguments;
mod ending;
mod held;
mod lent;
mod members;
mod pieces;
mod putting;
mod reads;
mod writes;

pub use ending::exit;
pub use held::HeldStreams;
pub use lent::{LentFiles, LentSink, LentSource, Loan};
