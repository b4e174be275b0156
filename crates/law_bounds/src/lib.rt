//! Laws of the bound of turns.
#![tactic(auto)]

mod laws;

pub use laws::bounds_cut_runs;
