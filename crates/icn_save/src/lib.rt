//! A run that stands at its bound of turns, saved: the bytes of a save, written and read exactly.
#![tactic(auto)]

mod call;
mod calls;
mod fault;
mod fields;
mod number;
mod reading;
mod save;
mod spelling_laws;
mod writing;

pub use call::{CallAnswer, SavedCall};
pub use fault::SaveFault;
pub use reading::read_save;
pub use save::Save;
pub use spelling_laws::one_spelling;
pub use writing::write_save;
