// The numbers of the instructions, and what stands behind them.
ghost use Rattle.std.specs.Prelude.{◌≡◌};
ghost use Rattle.icn_image.specs.Operands.{instr_number, instr_of, operand_of, operand_value};

use icn_code::Instr;
use icn_defs::{keyword_numbered, op_numbered};

// What stands behind the number of an instruction.
#[derive(Clone, Copy, Debug, PartialEq, Eq)]
pub enum Operand {
    Nothing,
    Number,
    Label,
}

/// What stands behind a number, where it is that of an instruction.
pub fn operand_of(number: u8) -> Option<Operand>
    ensures { result ≡ operand_of number }
{
    match number {
        2..=8 | 11..=14 => Some(Operand::Number),
        16 | 24 | 25 | 26 | 30 | 34 => Some(Operand::Label),
        1..=37 => Some(Operand::Nothing),
        _ => None,
    }
}

/// The number of an instruction.
pub fn instr_number(instr: Instr) -> u8
    ensures { result ≡ instr_number instr }
{
    match instr {
        Instr::Pnull => 1,
        Instr::Int(_) => 2,
        Instr::Str(_) => 3,
        Instr::Cset(_) => 4,
        Instr::Local(_) => 5,
        Instr::Static(_) => 6,
        Instr::Global(_) => 7,
        Instr::Keywd(_) => 8,
        Instr::Pop => 9,
        Instr::Dup => 10,
        Instr::Op(_) => 11,
        Instr::Llist(_) => 12,
        Instr::Field(_) => 13,
        Instr::Invoke(_) => 14,
        Instr::Appl => 15,
        Instr::Mark(_) => 16,
        Instr::Mark0 => 17,
        Instr::Unmark => 18,
        Instr::Eret => 19,
        Instr::Esusp => 20,
        Instr::Limit => 21,
        Instr::Lsusp => 22,
        Instr::Efail => 23,
        Instr::Chfail(_) => 24,
        Instr::Goto(_) => 25,
        Instr::Loop(_) => 26,
        Instr::Bscan => 27,
        Instr::Escan => 28,
        Instr::Ccase => 29,
        Instr::Init(_) => 30,
        Instr::Psusp => 31,
        Instr::Pret => 32,
        Instr::Pfail => 33,
        Instr::Create(_) => 34,
        Instr::Coact => 35,
        Instr::Coret => 36,
        Instr::Cofail => 37,
    }
}

/// The number that is the operand of an instruction, and 0 where it has none.
pub fn operand_value(instr: Instr) -> u32
    ensures { result ≡ operand_value instr }
{
    match instr {
        Instr::Int(value)
        | Instr::Str(value)
        | Instr::Cset(value)
        | Instr::Local(value)
        | Instr::Static(value)
        | Instr::Global(value)
        | Instr::Llist(value)
        | Instr::Field(value)
        | Instr::Invoke(value)
        | Instr::Mark(value)
        | Instr::Chfail(value)
        | Instr::Goto(value)
        | Instr::Loop(value)
        | Instr::Init(value)
        | Instr::Create(value) => value,
        Instr::Keywd(keyword) => u32::from(keyword.number()),
        Instr::Op(op) => u32::from(op.number()),
        _ => 0,
    }
}

/// The instruction of a number and an operand, where there is one.
#[tactic(auto, unfolding(crate::specs::Operands::instr_of))]
pub fn instr_of(number: u8, operand: u32) -> Option<Instr>
    ensures { result ≡ instr_of number operand }
{
    match number {
        1 => Some(Instr::Pnull),
        2 => Some(Instr::Int(operand)),
        3 => Some(Instr::Str(operand)),
        4 => Some(Instr::Cset(operand)),
        5 => Some(Instr::Local(operand)),
        6 => Some(Instr::Static(operand)),
        7 => Some(Instr::Global(operand)),
        8 => Some(Instr::Keywd(keyword_numbered(operand)?)),
        9 => Some(Instr::Pop),
        10 => Some(Instr::Dup),
        11 => Some(Instr::Op(op_numbered(operand)?)),
        12 => Some(Instr::Llist(operand)),
        13 => Some(Instr::Field(operand)),
        14 => Some(Instr::Invoke(operand)),
        15 => Some(Instr::Appl),
        16 => Some(Instr::Mark(operand)),
        17 => Some(Instr::Mark0),
        18 => Some(Instr::Unmark),
        19 => Some(Instr::Eret),
        20 => Some(Instr::Esusp),
        21 => Some(Instr::Limit),
        22 => Some(Instr::Lsusp),
        23 => Some(Instr::Efail),
        24 => Some(Instr::Chfail(operand)),
        25 => Some(Instr::Goto(operand)),
        26 => Some(Instr::Loop(operand)),
        27 => Some(Instr::Bscan),
        28 => Some(Instr::Escan),
        29 => Some(Instr::Ccase),
        30 => Some(Instr::Init(operand)),
        31 => Some(Instr::Psusp),
        32 => Some(Instr::Pret),
        33 => Some(Instr::Pfail),
        34 => Some(Instr::Create(operand)),
        35 => Some(Instr::Coact),
        36 => Some(Instr::Coret),
        37 => Some(Instr::Cofail),
        _ => None,
    }
}
