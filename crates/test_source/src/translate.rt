// The code of the procedure of a case.
mod shown;
mod source;

pub use source::code;
