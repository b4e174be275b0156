//! The words that rows are written in: arguments by conversion and by type, defaults where they are null, and what is charged.
#![tactic(auto)]

mod arguments;
mod charges;
mod conversions;
mod kinds;
mod moving;
mod structures;

pub use arguments::{arg, is_null, value_or, values_of};
pub use charges::{build, build_of, join, text_of, texts_of};
pub use conversions::{arith_result, check_text, cset_of, integer_of, natural_of, number_of};
pub use kinds::{file_of, list_of};
pub use moving::{stands, tab_to, undo_position_again};
pub use structures::new_list;
