// Rows of each crate through the one call of all rows, several calls in one world.
mod calls;
mod case;
mod code;
mod items;
mod showing;
mod streams;
mod words;
mod worlds;

pub use case::outcome;
pub use code::one_record;
pub use showing::{push_halt, push_item};
pub use streams::{TestStreams, new_streams, push_streams};
