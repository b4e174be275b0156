//! The tables of operations, functions and keywords by their numbers, the texts of run-time errors, what each operation and
//! function does, as definitions, and how a run ends.
#![tactic(auto)]

mod arguments;
mod arities;
mod definition_laws;
mod ending;
mod error_texts;
mod numbers;

pub use arguments::function_arguments;
pub use arities::arity;
pub use definition_laws::{events_add_up, numbers_lead_back};
pub use ending::Ending;
pub use error_texts::error_text;
pub use numbers::{func_numbered, keyword_numbered, op_numbered};
