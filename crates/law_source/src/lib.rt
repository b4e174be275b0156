//! Where the files of a store hold bytes, so do the names and the literals of all that is read from them.
#![tactic(auto)]

mod laws;

pub use laws::{lines_of_bytes, texts_of_bytes, tokens_of_bytes};
