//! Pruned code does what the whole code does where texts name kept procedures alone, and is verified where that is.
#![tactic(auto)]

mod laws;

pub use laws::{pruned_code_is_no_longer, pruned_code_is_verified, pruned_code_runs_alike};
