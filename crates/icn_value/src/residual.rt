// What is kept of an operation or a function that may be resumed.
use crate::cset::Cset;
use crate::item::VarRef;
use crate::val::{File, Span, Val};

/// Which assignment of an exchange moves the place of the other side, where both sides are parts of one variable.
#[derive(Clone, Copy, Debug, PartialEq, Eq)]
pub enum Mover {
    /// Neither of them.
    Neither,
    /// That of the left side.
    Left,
    /// That of the right side.
    Right,
}

/// What is kept of an operation or a function that may be resumed: from where it goes on, or what it takes back. A walk keeps the place
/// of the next element, from 0 on; a search keeps the place that it gave last, from 1 on.
#[derive(Clone, Copy, Debug, PartialEq, Eq)]
pub enum Residual {
    /// `!s` of a value.
    TextBytes {
        /// The text.
        text: Span,
        /// The place of the next byte, from 0 on.
        place: u64,
    },
    /// `!s` of a variable.
    VariableBytes {
        /// What holds the text.
        variable: VarRef,
        /// The place of the next byte, from 0 on.
        place: u64,
    },
    /// `!L`
    ListItems {
        /// The list.
        list: u32,
        /// The place of the next element.
        place: u64,
    },
    /// `!S`
    SetMembers {
        /// The set.
        set: u32,
        /// The place of the next member.
        place: u64,
    },
    /// `!T`
    TableValues {
        /// The table.
        table: u32,
        /// The place of the next pair.
        place: u64,
    },
    /// `key(T)`
    TableKeys {
        /// The table.
        table: u32,
        /// The place of the next pair.
        place: u64,
    },
    /// `!R`
    RecordFields {
        /// The record.
        rec: u32,
        /// The place of the next field.
        place: u64,
    },
    /// `!f`
    FileLines {
        /// The file whose lines are given.
        file: File,
    },
    /// `x <- y`
    UndoAssign {
        /// What was assigned to.
        variable: VarRef,
        /// What it held before.
        old: Val,
    },
    /// `x <-> y`
    UndoExchange {
        /// The side whose assignment moved the other, and will move it back.
        mover: Mover,
        /// The left side, as it is after the exchange.
        left: VarRef,
        /// The right side, as it is after the exchange.
        right: VarRef,
        /// What the left side held before.
        old_left: Val,
        /// What the right side held before.
        old_right: Val,
    },
    /// `tab`, `move` and `=s`
    UndoPosition {
        /// Where `&pos` stood before.
        old: u64,
    },
    /// `i to j by k`
    Counting {
        /// The integer given last.
        given: i64,
        /// The end, which is not passed.
        last: i64,
        /// What is added each time; it is not 0.
        step: i64,
    },
    /// `seq(i, j)`
    Sequence {
        /// The integer given last.
        given: i64,
        /// What is added each time; it is not 0.
        step: i64,
    },
    /// `bal`
    Balanced {
        /// The bytes to stand before.
        wanted: Cset,
        /// The bytes that open.
        opening: Cset,
        /// The bytes that close.
        closing: Cset,
        /// What is searched.
        text: Span,
        /// The place given last.
        place: u64,
        /// The place at which the search ends.
        last: u64,
    },
    /// `find`
    Found {
        /// The text to find.
        wanted: Span,
        /// What is searched.
        text: Span,
        /// The place given last.
        place: u64,
        /// The place at which the search ends.
        last: u64,
    },
    /// `upto`
    Among {
        /// The bytes to stand before.
        wanted: Cset,
        /// What is searched.
        text: Span,
        /// The place given last.
        place: u64,
        /// The place at which the search ends.
        last: u64,
    },
}
