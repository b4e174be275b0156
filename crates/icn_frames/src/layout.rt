// What a stack holds, as clauses see it. No cell is ever made: a stack keeps slots, and each stands for a cell.
use icn_value::{Item, Pair, Residual, Val};

/// Why something was suspended.
#[derive(Clone, Copy, Debug, PartialEq, Eq)]
pub enum Why {
    /// A branch, or a limited expression, gave a result.
    Alt,
    /// An operation or a function may be resumed.
    Op(Residual),
    /// A scan was opened; the pair is that outside it.
    Scan(Pair),
    /// A scan was left.
    Escan,
    /// A procedure suspended.
    Proc,
}

/// A count that is suspended.
#[derive(Clone, Copy, Debug, PartialEq, Eq)]
pub struct Count {
    /// The integer given last.
    pub given: i64,
    /// The end, which is not passed.
    pub last: i64,
    /// What is added each time.
    pub step: i64,
}

/// What the newest suspension is, as far as it tells without a `Why`.
#[derive(Clone, Copy, Debug, PartialEq, Eq)]
pub enum NewestKind {
    /// There is none.
    Nothing,
    /// `Why::Alt`.
    Alt,
    /// `Why::Op` of a count.
    Count,
    /// `Why::Escan`.
    Escan,
    /// `Why::Proc`.
    Proc,
    /// It may be any.
    Other,
}

/// Where the frame, the marks and the suspensions of what runs stand.
///
/// A height counts the cells up to one, which stands there: the lowest has the height 1. The procedure's frame counts as
/// its outermost mark.
#[derive(Clone, Copy)]
pub struct Registers {
    /// The frame of the procedure that runs.
    pub base: u64,
    /// The innermost mark.
    pub mark: u64,
    /// The newest suspension of that mark.
    pub newest: Option<u64>,
    /// The frame of the newest open scan of the procedure, which leads to the older ones.
    pub scan: Option<u64>,
}

/// The frame of a call that is to be put.
#[derive(Clone, Copy)]
pub struct NewFrame {
    /// The procedure that is called.
    pub proc: u32,
    /// How many locals it has.
    pub locals: u64,
    /// How deep it is called.
    pub level: u64,
    /// The registers of the caller.
    pub saved: Registers,
    /// Where the caller goes on.
    pub address: u32,
}

/// One cell, as clauses see it. A frame has its locals directly above it.
#[derive(Clone, Copy)]
pub enum Cell {
    /// The lowest frame: its procedure, and how many locals it has.
    Base {
        proc: u32,
        locals: u64,
    },
    /// The frame of a procedure that was called: besides, how deep it is called, and what comes back as it is left.
    Call {
        proc: u32,
        locals: u64,
        level: u64,
        saved: Registers,
        address: u32,
    },
    /// A local.
    Local(Val),
    /// A plain mark: its label, whether that was set anew, and the registers outside.
    Mark {
        label: Option<u32>,
        changed: bool,
        saved: Registers,
    },
    /// A limit mark: how many results may still come, and the registers outside.
    Limit {
        count: u64,
        saved: Registers,
    },
    /// A suspension: what comes back as it is resumed.
    Suspension {
        why: Why,
        saved: Registers,
        address: u32,
    },
    /// An operand.
    Operand(Item),
}

/// What a cell holds in which a value may stand.
#[derive(Clone, Copy)]
pub enum CellContent {
    /// A frame or a mark: no value.
    Nothing,
    /// A local.
    Local(Val),
    /// An operand.
    Operand(Item),
    /// What a suspension is there for.
    Suspended(Why),
}
