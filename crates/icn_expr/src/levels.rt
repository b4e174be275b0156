// The levels, and what a token can do.
ghost use Rattle.std.specs.Prelude.{◌≡◌, ◌≤◌};
ghost use Rattle.icn_tree.specs.Levels.{operator_level, infix_level, right_level as right_level_of, prefix_of, word_begins as word_begins_of, operator_begins as operator_begins_of, kind_begins, kind_goes_on};
ghost use Rattle.icn_expr.specs.Automata.{climbing_level as climbing_level_of};

use icn_tree::{Infix, Kind, Operator, Punctuation, Word};

/// The level of an operator between two operands, and 0 for one that never stands there.
pub fn level_of(operator: Operator) -> u32
    ensures level { result ≡ operator_level operator }
    ensures small { result ≤ 11 }
{
    match operator {
        Operator::Ampersand => 1,
        Operator::Question => 2,
        Operator::Assign | Operator::Swap | Operator::ReversibleAssign | Operator::ReversibleSwap =>
            3,
        Operator::Bar => 5,
        Operator::Less
        | Operator::LessEqual
        | Operator::Equal
        | Operator::GreaterEqual
        | Operator::Greater
        | Operator::NotEqual
        | Operator::LessLess
        | Operator::LessLessEqual
        | Operator::EqualEqual
        | Operator::GreaterGreaterEqual
        | Operator::GreaterGreater
        | Operator::NotEqualEqual
        | Operator::EqualEqualEqual
        | Operator::NotEqualEqualEqual => 6,
        Operator::BarBar | Operator::BarBarBar => 7,
        Operator::Plus | Operator::Minus | Operator::PlusPlus | Operator::MinusMinus => 8,
        Operator::Star | Operator::Slash | Operator::Percent | Operator::StarStar => 9,
        Operator::Caret => 10,
        Operator::Backslash | Operator::At | Operator::Bang => 11,
        Operator::Dot | Operator::Tilde => 0,
    }
}

/// The level of an operator between two operands.
pub fn infix_level_of(operator: Infix) -> u32
    ensures level { result ≡ infix_level operator }
    ensures small { result ≤ 11 }
{
    match operator {
        Infix::Plain(operator) => level_of(operator),
        Infix::Augmented(_) => 3,
    }
}

/// The least level of the right operand of an operator of this level.
pub fn right_level(level: u32) -> u32
    requires { level ≤ 13 }
    ensures { result ≡ right_level_of level }
{
    if level == 3 || level == 5 || level == 10 || level == 12 {
        level
    } else {
        level + 1
    }
}

/// The level at which an expression goes on that began as a part of this level.
pub fn climbing_level(level: u32) -> u32
    ensures { result ≡ climbing_level_of level }
{
    if level == 0 { 1 } else { level }
}

/// The first operator of one character that these characters are before an operand, and what the others are.
pub fn split(operator: Operator) -> Option<(Operator, Option<Operator>)>
    ensures { result ≡ prefix_of operator }
{
    match operator {
        Operator::Dot
        | Operator::Bang
        | Operator::At
        | Operator::Bar
        | Operator::Plus
        | Operator::Minus
        | Operator::Star
        | Operator::Slash
        | Operator::Backslash
        | Operator::Caret
        | Operator::Tilde
        | Operator::Equal
        | Operator::Question => Some((operator, None)),
        Operator::BarBar => Some((Operator::Bar, Some(Operator::Bar))),
        Operator::BarBarBar => Some((Operator::Bar, Some(Operator::BarBar))),
        Operator::PlusPlus => Some((Operator::Plus, Some(Operator::Plus))),
        Operator::MinusMinus => Some((Operator::Minus, Some(Operator::Minus))),
        Operator::StarStar => Some((Operator::Star, Some(Operator::Star))),
        Operator::NotEqual => Some((Operator::Tilde, Some(Operator::Equal))),
        Operator::NotEqualEqual => Some((Operator::Tilde, Some(Operator::EqualEqual))),
        Operator::NotEqualEqualEqual => Some((Operator::Tilde, Some(Operator::EqualEqualEqual))),
        Operator::EqualEqual => Some((Operator::Equal, Some(Operator::Equal))),
        Operator::EqualEqualEqual => Some((Operator::Equal, Some(Operator::EqualEqual))),
        _ => None,
    }
}

/// Whether a token can begin an expression.
pub fn begins(kind: &Kind) -> bool
    ensures { result ≡ kind_begins kind.now }
{
    match kind {
        Kind::Identifier(_) | Kind::Integer(_) | Kind::Text(_) | Kind::Cset(_) => true,
        Kind::Word(word) => word_begins(*word),
        Kind::Operator(operator) => operator_begins(*operator),
        Kind::Augmented(_) => false,
        Kind::Punctuation(mark) => matches!(
            mark,
            Punctuation::OpenParenthesis | Punctuation::OpenBracket | Punctuation::OpenBrace
        ),
    }
}

fn word_begins(word: Word) -> bool
    ensures { result ≡ word_begins_of word }
{
    matches!(
        word,
        Word::Break
            | Word::Case
            | Word::Create
            | Word::Every
            | Word::Fail
            | Word::If
            | Word::Next
            | Word::Not
            | Word::Repeat
            | Word::Return
            | Word::Suspend
            | Word::Until
            | Word::While
    )
}

/// Whether an operator can begin an expression.
pub fn operator_begins(operator: Operator) -> bool
    ensures { result ≡ operator_begins_of operator }
{
    match operator {
        Operator::Ampersand => true,
        _ => split(operator).is_some(),
    }
}

/// The level of the form that a token makes with what stands before it, and 0 where it makes none.
pub fn goes_on(kind: &Kind) -> u32
    ensures { result ≡ kind_goes_on kind.now }
{
    match kind {
        Kind::Word(Word::To) => 4,
        Kind::Operator(Operator::Dot) => 13,
        Kind::Operator(operator) => level_of(*operator),
        Kind::Augmented(_) => 3,
        Kind::Punctuation(
            Punctuation::OpenParenthesis | Punctuation::OpenBracket | Punctuation::OpenBrace,
        ) => 13,
        _ => 0,
    }
}
