//! What a text names: a procedure, a record constructor or a function.
#![tactic(auto)]

mod finding;

pub use finding::find;
