//! Translates procedures of a program text to code of a unit.
#![tactic(auto)]

mod builder;
mod expr;
mod file;
mod forms;
mod marks;
mod procedure;

pub use file::{proc_codes, unit_decls};
pub use procedure::proc_code;
