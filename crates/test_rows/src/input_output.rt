// The functions that read, write and end the program, one call in a world and on streams of its own.
mod cases;

pub use cases::outcome;
