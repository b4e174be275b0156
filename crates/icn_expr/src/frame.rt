// What is open while an expression is read.
use crate::value::{Branches, CappedTree, Elements};
use icn_tree::{Infix, LoopKind, Operator, Place, SectionKind};

/// What a list in brackets is read for.
#[derive(Drop)]
pub enum Bracket {
    Round,
    Square,
    Curly,
    Arguments(CappedTree),
    CoArguments(CappedTree),
    Subscripts(CappedTree),
}

/// What was read of a form, up to the part that is being read.
#[derive(Drop)]
pub enum PartialForm {
    Elements(Bracket, Elements),
    SectionEnd(SectionKind, CappedTree, CappedTree),
    PrefixOperand(Operator),
    NotOperand,
    RightOperand(Infix, CappedTree),
    ToOperand(CappedTree),
    ByOperand(CappedTree, CappedTree),
    Condition,
    Consequence(CappedTree),
    Alternative(CappedTree, CappedTree),
    CaseSubject,
    ClauseGuard(CappedTree, Branches, Place),
    GuardedValue(CappedTree, Branches, Place, CappedTree),
    DefaultValue(CappedTree, Branches, Place),
    Control(LoopKind),
    LoopBody(LoopKind, CappedTree),
    RepeatBody,
    CreateBody,
    BreakValue,
    ReturnValue,
    SuspendValue,
    SuspendBody(CappedTree),
}

/// An open form: the level of the expression that it belongs to, and where that expression began.
#[derive(Drop)]
pub struct OpenForm {
    pub level: u32,
    pub place: Place,
    pub holds: PartialForm,
}
