// Operations, resumed until they fail.
mod operands;
mod outcome;
mod showing;

pub use outcome::outcome;
