// What comes of an assignment.
use icn_value::VarRef;

/// What comes of an assignment that is no error.
#[derive(Clone, Copy, Debug, PartialEq, Eq)]
pub enum Assignment {
    /// The variable has the value. A part of a text covers what it got.
    Done(VarRef),
    /// The position is none of the subject, and nothing was assigned.
    OutOfRange,
}

/// What comes of an exchange that is no error.
#[derive(Clone, Copy, Debug, PartialEq, Eq)]
pub enum Exchange {
    /// The left and the right side, as they are then.
    Done(VarRef, VarRef),
    /// The position is none of the subject. What was assigned before stays.
    OutOfRange,
}

// What comes of moving a part by the change of length of another one.
#[derive(Clone, Copy, Debug, PartialEq, Eq)]
pub enum Moved {
    // The part is this one.
    To(VarRef),
    // It would begin before its text.
    BeforeText,
    // It begins behind every text, before and after.
    BehindTexts,
}
