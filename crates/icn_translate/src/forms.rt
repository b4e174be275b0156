// What literals, keywords and operators are translated to.
ghost use Rattle.std.specs.Prelude.{◌≡◌, IfOk};
ghost use Rattle.icn_translate.specs.Instructions.{infix_form, keyword_instr, literal_instr, prefix_form, section_op, update_form};

use icn_text::{Keyword, Op};
use icn_tree::{Bytes, Literal, Operator, SectionKind};
use icn_unit::UnitInstr;
use std::alloc::{AllocError, Global};

/// What an operator between operands is.
#[derive(Clone, Copy)]
pub enum InfixForm {
    /// `e1 & e2`.
    Both,
    /// `e1 ? e2`.
    Scanning,
    /// `e1 | e2`.
    Either,
    /// `e1 \ e2`.
    Limiting,
    /// `v @ C`.
    Activating,
    /// `p ! L`.
    Spreading,
    /// An operation of both operands.
    Operating(Op),
}

/// What an operator with `:=` behind it is.
#[derive(Clone, Copy)]
pub enum UpdateForm {
    /// `v &:= e`.
    Both,
    /// `v ?:= e`.
    Scanning,
    /// `v @:= C`.
    Activating,
    /// An operation of the variable and the operand.
    Operating(Op),
}

/// What an operator before its operand is.
#[derive(Clone, Copy)]
pub enum PrefixForm {
    /// `@C`.
    Activation,
    /// `|e`.
    Repetition,
    /// An operation of the operand.
    Operation(Op),
}

/// The instruction that pushes a literal. An error is want of memory.
pub fn literal_instr(alloc: Global, value: &Literal) -> Result<UnitInstr, AllocError>
    ensures { IfOk result (λ instr. instr ≡ literal_instr value.now) }
{
    match value {
        Literal::Integer(n) => Ok(UnitInstr::Int(*n)),
        Literal::Text(bytes) => Ok(UnitInstr::Str(Bytes::from_slice(alloc, bytes.as_slice())?)),
        Literal::Cset(members) => Ok(UnitInstr::Cset(members.copy(alloc)?)),
    }
}

/// The instruction of a keyword.
pub fn keyword_instr(keyword: Keyword) -> UnitInstr
    ensures { result ≡ keyword_instr keyword }
{
    match keyword {
        Keyword::Fail => UnitInstr::Efail,
        other => UnitInstr::Keywd(other),
    }
}

/// The operation of a section.
pub fn section_op(kind: SectionKind) -> Op
    ensures { result ≡ section_op kind }
{
    match kind {
        SectionKind::Between => Op::Section,
        SectionKind::Forward => Op::SectionPlus,
        SectionKind::Backward => Op::SectionMinus,
    }
}

/// What an operator between operands is. `.` and `~` never stand there, and are nothing.
pub fn infix_form(operator: Operator) -> Option<InfixForm>
    ensures { result ≡ infix_form operator }
{
    let op = match operator {
        Operator::Dot | Operator::Tilde => return None,
        Operator::Ampersand => return Some(InfixForm::Both),
        Operator::Question => return Some(InfixForm::Scanning),
        Operator::Bar => return Some(InfixForm::Either),
        Operator::Backslash => return Some(InfixForm::Limiting),
        Operator::At => return Some(InfixForm::Activating),
        Operator::Bang => return Some(InfixForm::Spreading),
        Operator::Star => Op::Multiply,
        Operator::StarStar => Op::Intersection,
        Operator::Plus => Op::Add,
        Operator::PlusPlus => Op::Union,
        Operator::Minus => Op::Subtract,
        Operator::MinusMinus => Op::Difference,
        Operator::Slash => Op::Divide,
        Operator::Percent => Op::Remainder,
        Operator::Caret => Op::Power,
        Operator::BarBar => Op::Concatenate,
        Operator::BarBarBar => Op::ConcatenateLists,
        Operator::Equal => Op::Equal,
        Operator::NotEqual => Op::NotEqual,
        Operator::EqualEqual => Op::LexicallyEqual,
        Operator::NotEqualEqual => Op::LexicallyNotEqual,
        Operator::EqualEqualEqual => Op::Equivalent,
        Operator::NotEqualEqualEqual => Op::NotEquivalent,
        Operator::Less => Op::Less,
        Operator::LessEqual => Op::LessOrEqual,
        Operator::Greater => Op::Greater,
        Operator::GreaterEqual => Op::GreaterOrEqual,
        Operator::LessLess => Op::LexicallyLess,
        Operator::LessLessEqual => Op::LexicallyLessOrEqual,
        Operator::GreaterGreater => Op::LexicallyGreater,
        Operator::GreaterGreaterEqual => Op::LexicallyGreaterOrEqual,
        Operator::Assign => Op::Assign,
        Operator::Swap => Op::Swap,
        Operator::ReversibleAssign => Op::ReversibleAssign,
        Operator::ReversibleSwap => Op::ReversibleSwap,
    };
    Some(InfixForm::Operating(op))
}

/// What an operator with `:=` behind it is. An assignment never stands there, nor do `!`, `\`, `|`, `.` and `~`: they are nothing.
pub fn update_form(operator: Operator) -> Option<UpdateForm>
    ensures { result ≡ update_form operator }
{
    let op = match operator {
        Operator::Bang | Operator::Backslash | Operator::Bar | Operator::Dot | Operator::Tilde => {
            return None;
        }
        Operator::Assign | Operator::Swap | Operator::ReversibleAssign | Operator::ReversibleSwap =>
            return None,
        Operator::Ampersand => return Some(UpdateForm::Both),
        Operator::Question => return Some(UpdateForm::Scanning),
        Operator::At => return Some(UpdateForm::Activating),
        Operator::Star => Op::Multiply,
        Operator::StarStar => Op::Intersection,
        Operator::Plus => Op::Add,
        Operator::PlusPlus => Op::Union,
        Operator::Minus => Op::Subtract,
        Operator::MinusMinus => Op::Difference,
        Operator::Slash => Op::Divide,
        Operator::Percent => Op::Remainder,
        Operator::Caret => Op::Power,
        Operator::BarBar => Op::Concatenate,
        Operator::BarBarBar => Op::ConcatenateLists,
        Operator::Equal => Op::Equal,
        Operator::NotEqual => Op::NotEqual,
        Operator::EqualEqual => Op::LexicallyEqual,
        Operator::NotEqualEqual => Op::LexicallyNotEqual,
        Operator::EqualEqualEqual => Op::Equivalent,
        Operator::NotEqualEqualEqual => Op::NotEquivalent,
        Operator::Less => Op::Less,
        Operator::LessEqual => Op::LessOrEqual,
        Operator::Greater => Op::Greater,
        Operator::GreaterEqual => Op::GreaterOrEqual,
        Operator::LessLess => Op::LexicallyLess,
        Operator::LessLessEqual => Op::LexicallyLessOrEqual,
        Operator::GreaterGreater => Op::LexicallyGreater,
        Operator::GreaterGreaterEqual => Op::LexicallyGreaterOrEqual,
    };
    Some(UpdateForm::Operating(op))
}

/// What an operator before its operand is. The others never stand there, and are nothing.
pub fn prefix_form(operator: Operator) -> Option<PrefixForm>
    ensures { result ≡ prefix_form operator }
{
    let op = match operator {
        Operator::At => return Some(PrefixForm::Activation),
        Operator::Bar => return Some(PrefixForm::Repetition),
        Operator::Bang => Op::Elements,
        Operator::Star => Op::Size,
        Operator::Plus => Op::Number,
        Operator::Minus => Op::Negate,
        Operator::Slash => Op::IsNull,
        Operator::Backslash => Op::IsNotNull,
        Operator::Caret => Op::Refresh,
        Operator::Dot => Op::Dereference,
        Operator::Question => Op::Random,
        Operator::Tilde => Op::Complement,
        Operator::Equal => Op::TabMatch,
        Operator::Ampersand
        | Operator::StarStar
        | Operator::PlusPlus
        | Operator::MinusMinus
        | Operator::Percent
        | Operator::BarBar
        | Operator::BarBarBar
        | Operator::NotEqual
        | Operator::EqualEqual
        | Operator::NotEqualEqual
        | Operator::EqualEqualEqual
        | Operator::NotEqualEqualEqual
        | Operator::Less
        | Operator::LessEqual
        | Operator::Greater
        | Operator::GreaterEqual
        | Operator::LessLess
        | Operator::LessLessEqual
        | Operator::GreaterGreater
        | Operator::GreaterGreaterEqual
        | Operator::Assign
        | Operator::Swap
        | Operator::ReversibleAssign
        | Operator::ReversibleSwap => return None,
    };
    Some(PrefixForm::Operation(op))
}
