// Units, linked.
mod cases;
mod listing;
mod units;

pub use cases::outcome;
