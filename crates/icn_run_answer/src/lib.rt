//! The answer of a program's run, and the counts of the outside behind it.
#![tactic(auto)]

mod count_laws;
mod run_fault;

pub use count_laws::counts_stay;
pub use run_fault::broken_answer;
