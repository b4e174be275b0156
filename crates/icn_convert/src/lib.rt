//! What values convert to, their images, whether two are the same, and the order of sorted lists.
#![tactic(auto)]

mod conversions;
mod csets;
mod images;
mod names;
mod order;
mod quotes;
mod sameness;

pub use conversions::{to_cset, to_integer, to_text};
pub use images::{image, push_file};
pub use names::{Names, ProcKind};
pub use order::compare;
pub use sameness::same;
