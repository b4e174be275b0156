//! The scanner: the tokens of the lines of a program text, or the first fault among them.
#![tactic(auto)]

mod escapes;
mod fault;
mod literals;
mod marks;
mod numbers;
mod scanner;
mod semicolons;
mod token;
mod words;

pub use fault::LexFault;
pub use scanner::tokens;
