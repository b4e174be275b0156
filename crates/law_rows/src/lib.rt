//! Laws of values, of their order, and of the rows of operations and functions. Nothing here runs.
#![tactic(auto)]

mod errors;
mod growth;
mod sizes;
mod sorting;
mod undoing;
mod values;
mod walks;

pub use errors::errors_change_nothing;
pub use growth::nothing_is_given_back;
pub use sizes::rows_keep;
pub use sorting::{sorting_is_one, sorting_puts_in_order};
pub use undoing::undoing_gives_back;
pub use values::{
    equivalence_is_equality, integers_survive_texts, positions_are_places, sorting_is_total,
};
pub use walks::{counting_goes_in_order, searches_go_in_order, walks_go_in_order};
