//! The tree of the expression that stands in front of some tokens.
#![tactic(auto)]

mod closing;
mod frame;
mod levels;
mod machine;
mod next;
mod reader;
mod stack;
mod state;
mod value;

pub use next::{behind, place_of};
pub use reader::expression;
pub use value::{CappedTree, Elements};
