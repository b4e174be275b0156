//! Linked code: the tables of a program and its instructions, with the rules that each code keeps.
#![tactic(auto)]

mod code;
mod instr;

pub use code::{Code, Global, LinkedProcedure, LinkedRecord, Start};
pub use instr::Instr;
