//! Joins units to linked code.
#![tactic(auto)]

mod fault;
mod gathered;
mod image_size;
mod invocables;
mod joining_laws;
mod labels;
mod linking;
mod lists;
mod mention;
mod missing;
mod repeats;
mod resolve;
mod sizes;
mod variable;

pub use fault::{DeclPlace, LinkFault};
pub use joining_laws::{joined_keeps_rules, units_are_joinable};
pub use linking::{Linked, link};
pub use missing::base_of;
