// Functions over integers, texts and csets.
mod case;

pub use case::outcome;
