// Images, read and written again.
mod hex;
mod listing;
mod outcome;

pub use outcome::Cases;
