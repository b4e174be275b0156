//! The tree of the tokens of a program text, or the first rule that they break.
#![tactic(auto)]

mod check;
mod declaration;
mod fault;
mod file;
mod keywords;
mod names;
mod parse_laws;
mod parser;
mod pieces;
mod procedure;
mod sign;
mod stop;

pub use fault::ParseFault;
pub use parse_laws::{longest_expressions, one_outcome, trees_are_read};
pub use parser::parse;
