//! The functions that open and close files, and the writing of those that are still open where a run ends.
#![tactic(auto)]

mod closing;
mod finding;
mod modes;
mod opening;
mod writing;

pub use closing::close_row;
pub use opening::open_row;
pub use writing::write_open_files;
