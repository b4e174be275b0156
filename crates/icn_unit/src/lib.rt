//! Units of code: what they are, the words and operands of their lines, and how they are spelled.
#![tactic(auto)]

mod fault;
mod instr_word;
mod operand;
mod unit;
mod writer;

pub use fault::{UcodeFault, UnitStop};
pub use instr_word::{InstrWord, instr_alone, instr_with_label, word_named};
pub use operand::{
    ascends, byte_text, cut, cut_line, is_name, keyword, label, number, small_number,
};
pub use unit::{NameKind, ProcCode, Unit, UnitDecl, UnitInstr, UnitName};
pub use writer::{UnitText, params_in, write_unit};
