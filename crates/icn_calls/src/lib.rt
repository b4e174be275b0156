//! What is called: procedures with their arguments, constructors, integers, which choose an argument, and texts, which name what is called; and fields of records.
#![tactic(auto)]

mod arguments;
mod callees;
mod calling;
mod constructors;
mod integers;
mod invoking;
mod naming;
mod record_fields;

pub use arguments::{add_nulls, fit};
pub use callees::{Callee, callee_of, function_of};
pub use calling::{call_procedure, take_parameters};
pub use constructors::{construct, record_of};
pub use integers::{call_integer, number_of, pick_argument};
pub use invoking::invoke;
pub use naming::named_callee;
pub use record_fields::{field_index, push_field};
