//! The units that a command names and those that they link: from sources, and from ucode.
#![tactic(auto)]

mod checking;
mod files;
mod generating;
mod members;
mod members_linked;
mod program_fault;
mod program_lines;
mod source;
mod ucode;

pub use files::{CommandFile, FileKind, file_named, files_named, name_with, sources_in};
pub use generating::generate_unit;
pub use icn_answer::Answer;
pub use members::{Members, load, load_named};
pub use program_lines::sizes_line;
pub use source::checked_source;
pub use ucode::{linked_unit, named_unit};
