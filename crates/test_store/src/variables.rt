// Variables: read, assigned, exchanged and given back their old values, several calls in one world.
mod assigning;
mod calls;
mod case;
mod holding;
mod showing;
mod undoing;
mod values;
mod variables;
mod worlds;

pub use case::outcome;
