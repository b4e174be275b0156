//! What rows read and put, over the files, the input and the outputs that a call is handed; the lines of a file.
#![tactic(auto)]

mod access;
mod ask;
mod filling;
mod lines;
mod opened;
mod reading;
mod settling;
mod streams;

pub use access::{ReadFrom, is_open_to_write, readable};
pub use ask::Ask;
pub use lines::lines_row;
pub use opened::read_opened;
pub use reading::read_text;
pub use settling::settle;
pub use streams::Streams;
