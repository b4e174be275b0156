// What a heap is made of: regions of strings, lists and pairs.
mod case;
mod items;
mod lists;
mod pairs;
mod strings;

pub use case::{case_text, laws_of_the_definitions};
