//! The image of linked code: its bytes, read and written exactly.
#![tactic(auto)]

mod fault;
mod front;
mod global;
mod head;
mod instr;
mod number;
mod operand;
mod procs;
mod reading;
mod scope;
mod spelling_laws;
mod table;
mod version;
mod writing;

pub use fault::ImageFault;
pub use reading::read_image;
pub use spelling_laws::one_spelling;
pub use writing::write_image;
