// The check of linked code: a code for each rule that breaks it and one that just doesn't, and what fits a shape.
mod cases;
mod codes;
mod instructions;
mod shapes;

pub use cases::outcome;
