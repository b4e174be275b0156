//! The context rules of a program text: which words, clauses and names may stand where.
#![tactic(auto)]

mod checked;
mod context;
mod context_laws;
mod decl;
mod expr;
mod fault;

pub use checked::{Checked, check};
pub use context_laws::names_once;
pub use fault::ContextFault;
