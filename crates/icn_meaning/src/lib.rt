//! The meaning of a program of the whole language, as a definition.
#![tactic(auto)]

mod meaning_laws;

pub use meaning_laws::one_observation;
