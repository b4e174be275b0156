//! Segments of a stack: blocks of a fixed number of places, which never move. A place is not initialised until a value is put
//! there.
#![tactic(auto)]

mod block;
mod raw_stack;
mod segment;

pub use block::{BlockDeed, BlockStart, BlockValues};
pub use raw_stack::RawStack;
pub use segment::Segment;
