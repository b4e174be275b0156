// Functions of scanning, resumed until they fail.
mod calls;
mod case;
mod keywords;
mod results;

pub use case::outcome;
