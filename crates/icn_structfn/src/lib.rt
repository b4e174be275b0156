//! The functions over lists, sets, tables and records.
#![tactic(auto)]

mod adding;
mod ends;
mod keys;
mod making;
mod making_rows;
mod ordering;
mod sorting;

pub use adding::{push, put};
pub use ends::{get, pull};
pub use keys::{delete, insert, key, key_again, member};
pub use making::new_record;
pub use making_rows::{copy, list, set, table};
pub use sorting::sort;
