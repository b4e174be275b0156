// The trees of a program text.
use crate::byte_set::ByteSet;
use crate::bytes::Bytes;
use crate::token::Operator;

/// Where a token stands.
#[derive(Clone, Copy, Debug, PartialEq, Eq)]
pub struct Place {
    /// The number of its line.
    pub line: u32,
    /// The place of its file's name among the names of the lines.
    pub file: u32,
}

/// A name where it stands.
#[derive(Debug, Drop)]
pub struct Name {
    /// Its bytes.
    pub text: Bytes,
    /// Where it stands.
    pub place: Place,
}

/// A literal.
#[derive(Debug, Drop)]
pub enum Literal {
    /// An integer, from 0 on.
    Integer(i64),
    /// A string, by its bytes.
    Text(Bytes),
    /// A cset, by the set of its bytes.
    Cset(ByteSet),
}

/// An operator between two operands.
#[derive(Clone, Copy, Debug, PartialEq, Eq)]
pub enum Infix {
    /// An operator by its characters.
    Plain(Operator),
    /// An operator with `:=` behind it.
    Augmented(Operator),
}

/// How the two numbers of a section are meant.
#[derive(Clone, Copy, Debug, PartialEq, Eq)]
pub enum SectionKind {
    /// `x[i:j]`, from one position to another.
    Between,
    /// `x[i+:n]`, so many elements from a position on.
    Forward,
    /// `x[i-:n]`, so many elements before a position.
    Backward,
}

/// A loop with a control expression.
#[derive(Clone, Copy, Debug, PartialEq, Eq)]
pub enum LoopKind {
    While,
    Until,
    Every,
}

/// An expression. Each form has the place of its first token; an empty expression has no token and no place.
#[derive(Drop)]
#[cycle(trees)]
pub enum Expr {
    /// Nothing: the null value.
    Empty,
    /// A literal.
    Literal {
        place: Place,
        value: Literal,
    },
    /// An identifier.
    Identifier {
        name: Name,
    },
    /// `&name`.
    Keyword {
        place: Place,
        name: Name,
    },
    /// `(a, b)`.
    Parentheses {
        place: Place,
        elements: Vec<Expr>,
    },
    /// `[a, b]`.
    List {
        place: Place,
        elements: Vec<Expr>,
    },
    /// `{a; b}`.
    Compound {
        place: Place,
        exprs: Vec<Expr>,
    },
    /// `f(a, b)`.
    Call {
        place: Place,
        callee: Box<Expr>,
        arguments: Vec<Expr>,
    },
    /// `p{a, b}`, a call with co-expressions.
    CoCall {
        place: Place,
        callee: Box<Expr>,
        arguments: Vec<Expr>,
    },
    /// `x[a, b]`.
    Subscript {
        place: Place,
        subject: Box<Expr>,
        subscripts: Vec<Expr>,
    },
    /// `x[a:b]`, `x[a+:b]` or `x[a-:b]`.
    Section {
        place: Place,
        kind: SectionKind,
        subject: Box<Expr>,
        from: Box<Expr>,
        to: Box<Expr>,
    },
    /// `x.name`.
    Field {
        place: Place,
        subject: Box<Expr>,
        name: Name,
    },
    /// An operator of one character before its operand.
    Prefix {
        place: Place,
        operator: Operator,
        operand: Box<Expr>,
    },
    /// `not a`.
    Not {
        place: Place,
        operand: Box<Expr>,
    },
    /// An operator between two operands.
    Binary {
        place: Place,
        operator: Infix,
        left: Box<Expr>,
        right: Box<Expr>,
    },
    /// `a to b by c`.
    To {
        place: Place,
        from: Box<Expr>,
        to: Box<Expr>,
        by: Option<Box<Expr>>,
    },
    /// `if a then b else c`.
    If {
        place: Place,
        condition: Box<Expr>,
        then: Box<Expr>,
        otherwise: Option<Box<Expr>>,
    },
    /// `case a of {..}`.
    Case {
        place: Place,
        subject: Box<Expr>,
        clauses: Vec<Clause>,
    },
    /// `while a do b`, `until a do b` or `every a do b`.
    Loop {
        place: Place,
        kind: LoopKind,
        control: Box<Expr>,
        body: Option<Box<Expr>>,
    },
    /// `repeat a`.
    Repeat {
        place: Place,
        body: Box<Expr>,
    },
    /// `create a`.
    Create {
        place: Place,
        body: Box<Expr>,
    },
    /// `next`.
    Next {
        place: Place,
    },
    /// `fail`.
    Fail {
        place: Place,
    },
    /// `break a`.
    Break {
        place: Place,
        value: Box<Expr>,
    },
    /// `return a`.
    Return {
        place: Place,
        value: Box<Expr>,
    },
    /// `suspend a do b`.
    Suspend {
        place: Place,
        value: Box<Expr>,
        body: Option<Box<Expr>>,
    },
}

/// A clause of a `case`.
#[derive(Drop)]
#[cycle(trees)]
pub enum Clause {
    /// `default: a`.
    Default {
        place: Place,
        value: Expr,
    },
    /// `a: b`.
    Guarded {
        place: Place,
        guard: Expr,
        value: Expr,
    },
}

/// What `link` or `invocable` names.
#[derive(Debug, Drop)]
pub enum DeclItem {
    /// An identifier.
    Identifier(Name),
    /// A string literal.
    Text(Name),
}

/// How the names that a procedure declares are kept.
#[derive(Clone, Copy, Debug, PartialEq, Eq)]
pub enum LocalKind {
    /// New in each call.
    Local,
    /// Kept between calls.
    Static,
}

/// `local a, b;` or `static a, b;`.
#[derive(Drop)]
pub struct LocalDecl {
    /// Where its word stands.
    pub place: Place,
    /// Which word it is.
    pub kind: LocalKind,
    /// The names in their order, one at least.
    pub names: Vec<Name>,
}

/// `initial a;`.
#[derive(Drop)]
pub struct Initial {
    /// Where its word stands.
    pub place: Place,
    /// What is evaluated in the first call alone.
    pub value: Expr,
}

/// A procedure.
#[derive(Drop)]
pub struct Procedure {
    /// Where its word stands.
    pub place: Place,
    /// Its name.
    pub name: Name,
    /// Its parameters in their order.
    pub parameters: Vec<Name>,
    /// Whether its last parameter, of one at least, gets a list of the arguments that are left.
    pub is_variadic: bool,
    /// The names that it declares, in their order.
    pub locals: Vec<LocalDecl>,
    /// What it does in the first call alone.
    pub initial: Option<Initial>,
    /// The expressions of its body in their order.
    pub body: Vec<Expr>,
}

/// A declaration.
#[derive(Drop)]
pub enum Decl {
    /// `global a, b`.
    Global {
        place: Place,
        names: Vec<Name>,
    },
    /// `link a, "b"`.
    Link {
        place: Place,
        items: Vec<DeclItem>,
    },
    /// `invocable a, "b"`.
    Invocable {
        place: Place,
        items: Vec<DeclItem>,
    },
    /// `record a(b, c)`.
    Record {
        place: Place,
        name: Name,
        fields: Vec<Name>,
    },
    /// A procedure.
    Procedure(Procedure),
}

/// A program text.
#[derive(Drop)]
pub struct SourceFile {
    /// The base name of its file.
    pub name: Bytes,
    /// Its declarations in their order.
    pub decls: Vec<Decl>,
}
