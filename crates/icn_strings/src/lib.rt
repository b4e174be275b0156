//! The strings of a program's heap: a region that holds their bytes, and charges them against a limit.
#![tactic(auto)]

mod all_bytes;
mod byte_range;
mod chunk;
mod closed;
mod copy;
mod full;
mod kept_parts;
mod lookup;
mod packed;
mod piece;
mod region;
mod region_laws;
mod sweeping;
mod writing;

pub use byte_range::ByteRange;
pub use full::RegionFull;
pub use piece::{Origin, StringPiece};
pub use region::Region;
pub use region_laws::{
    empty_range, end_of_range, length_of_bytes, part_of_range, short_string, was_written,
    within_limit,
};
