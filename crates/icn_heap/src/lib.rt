//! The heap: the strings and structures of a program, the files that it opened, and what is charged for them.
#![tactic(auto)]

mod charges;
mod coexps;
mod collecting;
mod copies;
mod counts;
mod deques;
mod elements;
mod entries;
mod fields;
mod file_entries;
mod files;
mod heap;
mod heap_laws;
mod held_entries;
mod key;
mod keys;
mod kinds;
mod lists;
mod marking;
mod members;
mod needed_values;
mod records;
mod sets;
mod sizes;
mod spans;
mod tables;
mod texts;

pub use file_entries::FileEntry;
pub use heap::Heap;
pub use heap_laws::{
    empty_text, few_coexps, keys_differ, length_of_text, live_numbers, made_differ, main_is_live,
    members_differ, short_text, strings_within_limit, within_limit,
};
pub use icn_value::Full;
pub use needed_values::NeededValues;
pub use spans::as_range;
