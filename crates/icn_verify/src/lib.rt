//! The check of linked code: at every address that is reached the stack has one shape, and each instruction finds there what it
//! takes and asks for.
#![tactic(auto)]

mod arena;
mod check;
mod fault;
mod flat;
mod pass;
mod rows;
mod shape;
mod statics;
mod table;
mod verification_laws;
mod verified;

pub use check::verify;
pub use fault::VerifyFault;
pub use shape::{Level, LevelKind, Shape, fits};
pub use verification_laws::{least_shapes, one_fault};
pub use verified::Verified;
