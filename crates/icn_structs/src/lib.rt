//! The lists and the pair lists of a program's heap.
#![tactic(auto)]

mod counts;
mod deque;
mod gaps;
mod pairs;
mod row;
mod shelf;
mod structure_laws;
mod turns;

pub use deque::Deque;
pub use pairs::Pairs;
pub use row::OnShelf;
pub use shelf::Shelf;
pub use structure_laws::{numbers_stay, values_stay};
