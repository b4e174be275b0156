// The table of the instructions.
ghost use Rattle.std.specs.Prelude.{◌≡◌};
ghost use Rattle.icn_verify.specs.Rows.{works, work_where, work_changing, way_only, row_of, meets, is_ended, has_operand};

use crate::shape::{Level, LevelKind, ShapeView};
use icn_code::Instr;
use icn_defs::arity;

/// What an instruction asks for.
#[derive(Clone, Copy)]
pub enum Asks {
    Nothing,
    /// An open mark.
    OpenMark,
    /// An open mark with exactly one operand and no open scan.
    EndedMark,
    /// The same of a plain mark.
    EndedPlain,
    /// The same of a limit mark.
    EndedLimit,
    /// An open plain mark.
    OpenPlain,
    /// An open scan in the innermost level.
    OpenScan,
    /// An open mark, and an operand in the level outside it.
    OperandOutside,
    /// An address outside create bodies.
    OutsideCreate,
    /// An address inside a create body.
    InsideCreate,
}

/// What an instruction does to the levels.
#[derive(Clone, Copy)]
pub enum LevelChange {
    Keeps,
    OpensPlain,
    OpensLimit,
    /// The innermost mark goes.
    Drops,
    OpensScan,
    ClosesScan,
}

/// How an instruction goes on.
#[derive(Clone, Copy)]
pub enum Way {
    /// To the next instruction.
    On,
    Ends,
    /// To the next instruction; where the mark that it opens fails, to the label.
    Fails(u32),
    /// To a label that lies after it.
    Jumps(u32),
    /// Back to a label.
    Returns(u32),
    /// To the next instruction; where the innermost mark fails, back to the label.
    Retries(u32),
    /// To the next instruction, or to a label that lies after it.
    Skips(u32),
    /// To a label that lies after it; a create body begins at the next instruction.
    Forks(u32),
}

/// A row of the table.
#[derive(Clone, Copy)]
pub struct StackEffect {
    /// How many operands the instruction takes from the innermost level.
    pub takes: u64,
    /// How many it leaves in the level that is innermost then.
    pub leaves: u32,
    pub asks: Asks,
    pub change: LevelChange,
    pub way: Way,
}

impl StackEffect {
    // Operands taken and left, and on to the next instruction.
    fn works(takes: u64, leaves: u32) -> StackEffect
        ensures { result ≡ works takes leaves }
    {
        StackEffect::row_that_asks(Asks::Nothing, takes, leaves)
    }

    fn row_that_asks(asks: Asks, takes: u64, leaves: u32) -> StackEffect
        ensures { result ≡ work_where asks takes leaves }
    {
        StackEffect::row_that_changes(asks, LevelChange::Keeps, takes, leaves)
    }

    fn row_that_changes(asks: Asks, change: LevelChange, takes: u64, leaves: u32) -> StackEffect
        ensures { result ≡ work_changing asks change takes leaves }
    {
        StackEffect {
            takes,
            leaves,
            asks,
            change,
            way: Way::On,
        }
    }

    // On in another way, without operands.
    fn row_that_leads(asks: Asks, way: Way) -> StackEffect
        ensures { result ≡ way_only asks way }
    {
        StackEffect {
            takes: 0,
            leaves: 0,
            asks,
            change: LevelChange::Keeps,
            way,
        }
    }
}

/// The row of an instruction.
pub fn row_of(instr: Instr) -> StackEffect
    ensures { result ≡ row_of instr }
{
    match instr {
        Instr::Pnull
        | Instr::Int(_)
        | Instr::Str(_)
        | Instr::Cset(_)
        | Instr::Local(_)
        | Instr::Static(_)
        | Instr::Global(_)
        | Instr::Keywd(_) => StackEffect::works(0, 1),
        Instr::Pop => StackEffect::works(1, 0),
        Instr::Dup => StackEffect::works(1, 2),
        Instr::Op(op) => StackEffect::works(u64::from(arity(op)), 1),
        Instr::Llist(count) => StackEffect::works(u64::from(count), 1),
        Instr::Field(_) => StackEffect::works(1, 1),
        Instr::Invoke(count) => StackEffect::works(u64::from(count) + 1, 1),
        Instr::Appl | Instr::Coact => StackEffect::works(2, 1),
        Instr::Mark(label) => StackEffect {
            way: Way::Fails(label),
            ..StackEffect::row_that_changes(Asks::Nothing, LevelChange::OpensPlain, 0, 0)
        },
        Instr::Mark0 => StackEffect::row_that_changes(Asks::Nothing, LevelChange::OpensPlain, 0, 0),
        Instr::Unmark => StackEffect::row_that_changes(Asks::OpenMark, LevelChange::Drops, 0, 0),
        Instr::Eret => StackEffect::row_that_changes(Asks::EndedMark, LevelChange::Drops, 1, 1),
        Instr::Esusp => StackEffect::row_that_changes(Asks::EndedPlain, LevelChange::Drops, 1, 1),
        Instr::Limit => StackEffect::row_that_changes(Asks::Nothing, LevelChange::OpensLimit, 1, 0),
        Instr::Lsusp => StackEffect::row_that_changes(Asks::EndedLimit, LevelChange::Drops, 1, 1),
        Instr::Efail => StackEffect::row_that_leads(Asks::Nothing, Way::Ends),
        Instr::Chfail(label) => StackEffect::row_that_leads(Asks::OpenPlain, Way::Retries(label)),
        Instr::Goto(label) => StackEffect::row_that_leads(Asks::Nothing, Way::Jumps(label)),
        Instr::Loop(label) => StackEffect::row_that_leads(Asks::Nothing, Way::Returns(label)),
        Instr::Bscan => StackEffect::row_that_changes(Asks::Nothing, LevelChange::OpensScan, 1, 0),
        Instr::Escan => StackEffect::row_that_changes(
            Asks::OpenScan,
            LevelChange::ClosesScan,
            1,
            1,
        ),
        Instr::Ccase => StackEffect::row_that_asks(Asks::OperandOutside, 0, 1),
        Instr::Init(label) => StackEffect::row_that_leads(Asks::OutsideCreate, Way::Skips(label)),
        Instr::Psusp => StackEffect::row_that_asks(Asks::OutsideCreate, 1, 1),
        Instr::Pret => StackEffect {
            way: Way::Ends,
            ..StackEffect::row_that_asks(Asks::OutsideCreate, 1, 0)
        },
        Instr::Pfail => StackEffect::row_that_leads(Asks::OutsideCreate, Way::Ends),
        Instr::Create(label) => StackEffect {
            way: Way::Forks(label),
            ..StackEffect::works(0, 1)
        },
        Instr::Coret => StackEffect::row_that_asks(Asks::InsideCreate, 1, 1),
        Instr::Cofail => StackEffect::row_that_leads(Asks::InsideCreate, Way::Ends),
    }
}

// Exactly one operand, and no open scan.
fn is_ended(level: Level) -> bool
    ensures { result ≡ is_ended level }
{
    level.operands == 1 && level.scans == 0
}

fn has_operand(level: Level) -> bool
    ensures { result ≡ has_operand level }
{
    level.operands > 0
}

/// Whether what an instruction asks for is there.
pub fn meets(asks: Asks, look: ShapeView) -> bool
    ensures { result ≡ meets asks look }
{
    let is_open = look.outside.is_some();
    let inner = look.inner;
    match asks {
        Asks::Nothing => true,
        Asks::OpenMark => is_open,
        Asks::EndedMark => is_open && is_ended(inner),
        Asks::EndedPlain => is_open && inner.kind == LevelKind::Plain && is_ended(inner),
        Asks::EndedLimit => is_open && inner.kind == LevelKind::Limit && is_ended(inner),
        Asks::OpenPlain => is_open && inner.kind == LevelKind::Plain,
        Asks::OpenScan => inner.scans > 0,
        Asks::OperandOutside => match look.outside {
            Some(level) => has_operand(level),
            None => false,
        },
        Asks::OutsideCreate => !look.in_create,
        Asks::InsideCreate => look.in_create,
    }
}
