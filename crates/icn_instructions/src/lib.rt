//! Every instruction that performs no row and calls nothing, over the machine.
#![tactic(auto)]

mod at_once;
mod coexpressions;
mod eret;
mod groups;
mod in_world;
mod instructions;
mod on_machine;
mod on_stack;

pub use at_once::do_world_at_once;
pub use groups::{InstrGroup, group_of};
pub use instructions::{do_off_stack, do_stack_instruction};
