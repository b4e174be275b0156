// Stacks: of cells, of frames, and of co-expressions.
mod calls;
mod case;
mod cells;
mod coexpressions;
mod frame_cases;
mod frames;
mod nesting;
mod showing;
mod words;

pub use case::case_text;
