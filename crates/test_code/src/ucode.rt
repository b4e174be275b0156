// Texts of units, read and written again.
mod built;
mod case;
mod changes;
mod outcome;
mod texts;

pub use case::case_outcome;
