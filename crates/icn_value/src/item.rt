// Variables, and what an expression gives.
use crate::val::{Span, Val};

/// A keyword that is a variable.
#[derive(Clone, Copy, Debug, PartialEq, Eq)]
pub enum KeywordVariable {
    /// `&subject`
    Subject,
    /// `&pos`
    Position,
    /// `&random`
    Random,
    /// `&error`
    ErrorCount,
}

/// What a variable is rooted in.
#[derive(Clone, Copy, Debug, PartialEq, Eq)]
pub enum Root {
    /// A global, by its number.
    Global(u32),
    /// A static, by its number.
    Static(u32),
    /// A local of the activation at hand, by its place.
    Local(u32),
    /// An element of a list.
    Element {
        /// The list.
        list: u32,
        /// The number that stays with the element.
        number: i64,
    },
    /// A field of a record.
    Field {
        /// The record.
        rec: u32,
        /// The place of the field, from 0 on.
        place: u16,
    },
    /// The value at a key of a table.
    Key {
        /// The table.
        table: u32,
        /// The key.
        key: Val,
    },
    /// A keyword.
    Keyword(KeywordVariable),
}

/// A variable.
#[derive(Clone, Copy, Debug, PartialEq, Eq)]
pub enum VarRef {
    /// All of it.
    Whole(Root),
    /// A part of the text that it holds.
    Part {
        /// What holds the text.
        root: Root,
        /// The place of the first byte, from 1 on.
        place: u64,
        /// How many bytes there are.
        len: u64,
    },
}

/// What an expression gives.
#[derive(Clone, Copy, Debug, PartialEq, Eq)]
pub enum Item {
    /// A value.
    Val(Val),
    /// A variable.
    Var(VarRef),
}

/// The subject and the position of a scan.
#[derive(Clone, Copy, Debug, PartialEq, Eq)]
pub struct Pair {
    /// What is scanned.
    pub subject: Span,
    /// The position, from 1 to one more than the subject's length.
    pub position: u64,
}
