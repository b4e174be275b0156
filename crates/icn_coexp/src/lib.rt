//! The co-expressions of a run, with their stacks, and the transfers between them.
#![tactic(auto)]

mod entries;
mod table;
mod transfer_laws;

pub use entries::{CoexpEntry, RunningStack, Status};
pub use table::{AfterTransfer, Stacks};
pub use transfer_laws::transfers_keep_others;
