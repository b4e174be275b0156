// What instructions touch.
ghost use Rattle.std.specs.Prelude.{◌≡◌};
ghost use Rattle.icn_instructions.specs.Groups.{group_of, group_of_op};

use icn_code::Instr;
use icn_text::Op;

/// What an instruction touches.
#[derive(Clone, Copy, Debug, PartialEq, Eq)]
pub enum InstrGroup {
    /// Nothing but the stack that runs.
    Stack,
    /// The stack that runs and the world.
    World,
    /// The stack that runs, the world, turns and `initial`.
    Machine,
    /// Co-expressions.
    Coexpression,
    /// It applies an operation, a field or what is called, and is not done here.
    Application,
}

/// What an instruction touches.
#[inline(always)]
pub fn group_of(instr: Instr) -> InstrGroup
    ensures { result ≡ group_of instr }
{
    match instr {
        Instr::Pnull => InstrGroup::Stack,
        Instr::Int(_) => InstrGroup::Stack,
        Instr::Str(_) => InstrGroup::World,
        Instr::Cset(_) => InstrGroup::Stack,
        Instr::Local(_) => InstrGroup::Stack,
        Instr::Static(_) => InstrGroup::Stack,
        Instr::Global(_) => InstrGroup::Stack,
        Instr::Keywd(_) => InstrGroup::Machine,
        Instr::Pop => InstrGroup::Stack,
        Instr::Dup => InstrGroup::Stack,
        Instr::Op(op) => group_of_op(op),
        Instr::Llist(_) => InstrGroup::Machine,
        Instr::Field(_) => InstrGroup::Application,
        Instr::Invoke(_) => InstrGroup::Application,
        Instr::Appl => InstrGroup::Application,
        Instr::Mark(_) => InstrGroup::Stack,
        Instr::Mark0 => InstrGroup::Stack,
        Instr::Unmark => InstrGroup::Machine,
        Instr::Eret => InstrGroup::World,
        Instr::Esusp => InstrGroup::Stack,
        Instr::Limit => InstrGroup::World,
        Instr::Lsusp => InstrGroup::Machine,
        Instr::Efail => InstrGroup::Machine,
        Instr::Chfail(_) => InstrGroup::Stack,
        Instr::Goto(_) => InstrGroup::Stack,
        Instr::Loop(_) => InstrGroup::Machine,
        Instr::Bscan => InstrGroup::World,
        Instr::Escan => InstrGroup::World,
        Instr::Ccase => InstrGroup::Stack,
        Instr::Init(_) => InstrGroup::Machine,
        Instr::Psusp => InstrGroup::World,
        Instr::Pret => InstrGroup::World,
        Instr::Pfail => InstrGroup::World,
        Instr::Create(_) => InstrGroup::Coexpression,
        Instr::Coact => InstrGroup::Coexpression,
        Instr::Coret => InstrGroup::Coexpression,
        Instr::Cofail => InstrGroup::Coexpression,
    }
}

// Of the operations, the refreshing of a co-expression is no row.
#[inline(always)]
fn group_of_op(op: Op) -> InstrGroup
    ensures { result ≡ group_of_op op }
{
    match op {
        Op::Refresh => InstrGroup::Coexpression,
        _ => InstrGroup::Application,
    }
}
