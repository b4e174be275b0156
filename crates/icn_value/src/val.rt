// Values as a machine holds them.
use crate::cset::Cset;

/// Where the bytes of a text lie in the string region of a heap.
#[derive(Clone, Copy, Debug, PartialEq, Eq)]
pub struct Span {
    /// Where the first byte lies, from 0 on.
    pub start: u64,
    /// How many bytes there are.
    pub len: u64,
}

/// A file: one of the three standard ones, or one that the program opened.
#[derive(Clone, Copy, Debug, PartialEq, Eq, Hash)]
pub enum File {
    /// `&input`
    Input,
    /// `&output`
    Output,
    /// `&errout`
    Errout,
    /// One that the program opened, by the order in which files were opened, from 0 on.
    Opened(u32),
}

/// A value. The bytes of a text and the contents of a structure lie in a heap.
#[derive(Clone, Copy, Debug, PartialEq, Eq)]
pub enum Val {
    /// The null value.
    Null,
    /// An integer.
    Integer(i64),
    /// A text.
    Text(Span),
    /// A set of bytes.
    Chars(Cset),
    /// A file.
    Std(File),
    /// A procedure, a record constructor or a function: procedures have the first numbers, then constructors, then functions.
    Proc(u32),
    /// A record, by the order in which records were made, from 0 on, as are the other structures.
    Rec(u32),
    /// A list.
    List(u32),
    /// A set.
    Set(u32),
    /// A table.
    Table(u32),
    /// A co-expression; `&main` is number 0.
    Coexp(u32),
}
