//! The machine over all rows: operations, functions, what they left, and runs of instructions.
#![tactic(auto)]

mod assigning;
mod assignments_in_place;
mod at_once;
mod concatenating;
mod counts;
mod elements;
mod elements_in_place;
mod errors;
mod failing;
mod fields;
mod functions_in_place;
mod giving;
mod held_assignments;
mod held_values;
mod invoking;
mod laying_out;
mod lists_in_place;
mod operations;
mod own_locals;
mod performing;
mod plain_calls;
mod plain_functions;
mod plain_operations;
mod scanning;
mod starting;
mod stepping;
mod texts_in_place;
mod told;
mod turns_at_once;
mod value_operations;

pub use at_once::{AtOnce, is_unfinished, step_at_once};
pub use failing::fail_through;
pub use fields::field;
pub use giving::give_outcome;
pub use invoking::{appl, call_value, invoke};
pub use operations::{operate, resume};
pub use own_locals::{Earlier, OwnLocals};
pub use performing::{perform, perform_again};
pub use starting::start;
pub use stepping::{AfterStep, Rooms, finish_step, step};
