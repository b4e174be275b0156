//! What the run of linked code does: the definitions of a step and of a run, on flat stacks and on linked marks.
#![tactic(auto)]

mod run_laws;

pub use run_laws::one_observation;
