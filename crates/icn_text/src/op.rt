// The operations.
ghost use Rattle.std.specs.Prelude.{◌≡◌};
ghost use Rattle.icn_text.specs.Ops.{op_number};

/// An operation that an operator, a subscript or `to` stands for.
#[derive(Clone, Copy, Debug, PartialEq, Eq)]
pub enum Op {
    /// `/x`
    IsNull = 1,
    /// `\x`
    IsNotNull = 2,
    /// `.x`
    Dereference = 3,
    /// `+n`
    Number = 4,
    /// `-n`
    Negate = 5,
    /// `*x`
    Size = 6,
    /// `~c`
    Complement = 7,
    /// `!x`
    Elements = 8,
    /// `?x`
    Random = 9,
    /// `=s`
    TabMatch = 10,
    /// `^C`
    Refresh = 11,
    /// `n + n`
    Add = 12,
    /// `n - n`
    Subtract = 13,
    /// `n * n`
    Multiply = 14,
    /// `n / n`
    Divide = 15,
    /// `n % n`
    Remainder = 16,
    /// `n ^ n`
    Power = 17,
    /// `n < n`
    Less = 18,
    /// `n <= n`
    LessOrEqual = 19,
    /// `n = n`
    Equal = 20,
    /// `n >= n`
    GreaterOrEqual = 21,
    /// `n > n`
    Greater = 22,
    /// `n ~= n`
    NotEqual = 23,
    /// `s << s`
    LexicallyLess = 24,
    /// `s <<= s`
    LexicallyLessOrEqual = 25,
    /// `s == s`
    LexicallyEqual = 26,
    /// `s >>= s`
    LexicallyGreaterOrEqual = 27,
    /// `s >> s`
    LexicallyGreater = 28,
    /// `s ~== s`
    LexicallyNotEqual = 29,
    /// `x === y`
    Equivalent = 30,
    /// `x ~=== y`
    NotEquivalent = 31,
    /// `s || s`
    Concatenate = 32,
    /// `L ||| L`
    ConcatenateLists = 33,
    /// `x ++ y`
    Union = 34,
    /// `x -- y`
    Difference = 35,
    /// `x ** y`
    Intersection = 36,
    /// `x := y`
    Assign = 37,
    /// `x :=: y`
    Swap = 38,
    /// `x <- y`
    ReversibleAssign = 39,
    /// `x <-> y`
    ReversibleSwap = 40,
    /// `x[y]`
    Subscript = 41,
    /// `x[i:j]`
    Section = 42,
    /// `x[i+:j]`
    SectionPlus = 43,
    /// `x[i-:j]`
    SectionMinus = 44,
    /// `i to j by k`
    ToBy = 45,
}

impl Op {
    /// All of them, in the order of their numbers.
    pub const ALL: [Op; 45] = [
        Op::IsNull,
        Op::IsNotNull,
        Op::Dereference,
        Op::Number,
        Op::Negate,
        Op::Size,
        Op::Complement,
        Op::Elements,
        Op::Random,
        Op::TabMatch,
        Op::Refresh,
        Op::Add,
        Op::Subtract,
        Op::Multiply,
        Op::Divide,
        Op::Remainder,
        Op::Power,
        Op::Less,
        Op::LessOrEqual,
        Op::Equal,
        Op::GreaterOrEqual,
        Op::Greater,
        Op::NotEqual,
        Op::LexicallyLess,
        Op::LexicallyLessOrEqual,
        Op::LexicallyEqual,
        Op::LexicallyGreaterOrEqual,
        Op::LexicallyGreater,
        Op::LexicallyNotEqual,
        Op::Equivalent,
        Op::NotEquivalent,
        Op::Concatenate,
        Op::ConcatenateLists,
        Op::Union,
        Op::Difference,
        Op::Intersection,
        Op::Assign,
        Op::Swap,
        Op::ReversibleAssign,
        Op::ReversibleSwap,
        Op::Subscript,
        Op::Section,
        Op::SectionPlus,
        Op::SectionMinus,
        Op::ToBy,
    ];

    /// The number, from 1 to how many there are.
    pub fn number(self) -> u8
        ensures { result ≡ op_number self }
    {
        self as u8
    }
}
