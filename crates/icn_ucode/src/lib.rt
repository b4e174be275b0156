//! Reads the two texts of a unit of ucode. The types of a unit and its writer are passed on from `icn_unit`.
#![tactic(auto)]

mod decl_lists;
mod decl_reader;
mod instr_reader;
mod labels;
mod proc_lists;
mod proc_reader;
mod reader;
mod unit_laws;

pub use icn_unit::{
    InstrWord, NameKind, ProcCode, UcodeFault, Unit, UnitDecl, UnitInstr, UnitName, UnitText,
    write_unit,
};
pub use reader::read_unit;
pub use unit_laws::one_spelling;
