//! Short lists of tokens with their trees, each of them proved by the grammar's definition; and how trees are built, with what is proved of
//! those that are.
#![tactic(auto)]

mod building;
mod table;

pub use building::{binary, list_of, to_by, with_one_more};
pub use table::rows;
