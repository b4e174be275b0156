//! The variables of a program: its world, and how variables are read, assigned, exchanged and undone.
#![tactic(auto)]

mod assigning;
mod assignment;
mod change_laws;
mod collecting;
mod errors;
mod exchanging;
mod keywords;
mod locals;
mod movers;
mod outcome;
mod reading;
mod roots;
mod stop;
mod texts;
mod undoing;
mod words;
mod world;

pub use assigning::assign;
pub use assignment::{Assignment, Exchange};
pub use change_laws::{
    coexpressions_are_made, fields_are_assigned, results_are_counted, settings_stay,
};
pub use collecting::{add_item, add_variable};
pub use errors::ends_by;
pub use exchanging::exchange;
pub use keywords::position_of;
pub use locals::Locals;
pub use movers::mover_of;
pub use outcome::{Halt, Outcome, ValueOutcome};
pub use reading::deref;
pub use stop::Stop;
pub use undoing::{undo, undo_exchange};
pub use words::{HeldError, Words};
pub use world::World;
