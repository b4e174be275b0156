//! The preprocessor: from a named file to the lines that it gives, with its directives obeyed and its defined words replaced.
#![tactic(auto)]

mod bytes;
mod cursor;
mod cut;
mod directive;
mod fault;
mod file;
mod give;
mod given_line_laws;
mod keyword;
mod line;
mod literal;
mod open_file;
mod operand;
mod replace;
mod source;
mod source_reader;
mod texts;

pub use fault::PrepFault;
pub use given_line_laws::{count_never_binds, one_outcome, own_lines, text_faults};
pub use icn_tree::{Lines, SourceLine};
pub use source::preprocess;
