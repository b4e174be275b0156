// The tokens of a program text.
use crate::byte_set::ByteSet;
use crate::bytes::Bytes;

/// A reserved word.
#[derive(Clone, Copy, Debug, PartialEq, Eq)]
pub enum Word {
    Break,
    By,
    Case,
    Create,
    Default,
    Do,
    Else,
    End,
    Every,
    Fail,
    Global,
    If,
    Initial,
    Invocable,
    Link,
    Local,
    Next,
    Not,
    Of,
    Procedure,
    Record,
    Repeat,
    Return,
    Static,
    Suspend,
    Then,
    To,
    Until,
    While,
}

/// An operator by its characters. Many of them stand for one operation before an operand and for another between two.
#[derive(Clone, Copy, Debug, PartialEq, Eq)]
pub enum Operator {
    /// `!`
    Bang,
    /// `@`
    At,
    /// `&`
    Ampersand,
    /// `*`
    Star,
    /// `**`
    StarStar,
    /// `+`
    Plus,
    /// `++`
    PlusPlus,
    /// `-`
    Minus,
    /// `--`
    MinusMinus,
    /// `/`
    Slash,
    /// `%`
    Percent,
    /// `\`
    Backslash,
    /// `^`
    Caret,
    /// `|`
    Bar,
    /// `||`
    BarBar,
    /// `|||`
    BarBarBar,
    /// `.`
    Dot,
    /// `?`
    Question,
    /// `~`
    Tilde,
    /// `=`
    Equal,
    /// `~=`
    NotEqual,
    /// `==`
    EqualEqual,
    /// `~==`
    NotEqualEqual,
    /// `===`
    EqualEqualEqual,
    /// `~===`
    NotEqualEqualEqual,
    /// `<`
    Less,
    /// `<=`
    LessEqual,
    /// `>`
    Greater,
    /// `>=`
    GreaterEqual,
    /// `<<`
    LessLess,
    /// `<<=`
    LessLessEqual,
    /// `>>`
    GreaterGreater,
    /// `>>=`
    GreaterGreaterEqual,
    /// `:=`
    Assign,
    /// `:=:`
    Swap,
    /// `<-`
    ReversibleAssign,
    /// `<->`
    ReversibleSwap,
}

/// A punctuation mark.
#[derive(Clone, Copy, Debug, PartialEq, Eq)]
pub enum Punctuation {
    /// `(`
    OpenParenthesis,
    /// `)`
    CloseParenthesis,
    /// `[`, also spelled `$<`
    OpenBracket,
    /// `]`, also spelled `$>`
    CloseBracket,
    /// `{`, also spelled `$(`
    OpenBrace,
    /// `}`, also spelled `$)`
    CloseBrace,
    /// `,`
    Comma,
    /// `;`
    Semicolon,
    /// `:`
    Colon,
    /// `+:`
    PlusColon,
    /// `-:`
    MinusColon,
}

/// What a token is.
#[derive(Debug, Drop)]
pub enum Kind {
    /// An identifier, of 1 to 65535 bytes where it comes of a text.
    Identifier(Bytes),
    /// An integer literal, from 0 on.
    Integer(i64),
    /// A string literal, by the bytes that it stands for, at most 65535 where it comes of a text.
    Text(Bytes),
    /// A cset literal, by the set of its bytes.
    Cset(ByteSet),
    /// A reserved word.
    Word(Word),
    /// An operator.
    Operator(Operator),
    /// An operator with `:=` behind it, as `+:=`.
    Augmented(Operator),
    /// A punctuation mark.
    Punctuation(Punctuation),
}

/// A token with the place of its first byte. A semicolon that the end of a line stands for has the place of the token
/// before it.
#[derive(Debug, Drop)]
pub struct Token {
    /// What it is.
    pub kind: Kind,
    /// The number of its line.
    pub line: u32,
    /// The place of its file's name among the names of the lines.
    pub file: u32,
}
