// Functions over structures, several calls in one world.
mod arguments;
mod calls;
mod case;
mod outcomes;

pub use case::outcome;
