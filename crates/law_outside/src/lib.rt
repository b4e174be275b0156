//! Laws of what rows and runs do to the input and the outputs.
#![tactic(auto)]

mod laws;

pub use laws::outsides_grow;
