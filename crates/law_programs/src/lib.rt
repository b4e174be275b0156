//! Laws of both programs together.
#![tactic(auto)]

mod laws;

pub use laws::images_run_as_sources;
