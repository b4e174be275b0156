// How many operands an operation has.
ghost use Rattle.std.specs.Prelude.{◌≡◌};
ghost use Rattle.icn_defs.specs.Arities.{arity};

use icn_text::Op;

/// How many operands an operation has, from 1 to 3. It takes no memory.
pub fn arity(op: Op) -> u8
    ensures { result ≡ arity op }
{
    match op {
        Op::IsNull
        | Op::IsNotNull
        | Op::Dereference
        | Op::Number
        | Op::Negate
        | Op::Size
        | Op::Complement
        | Op::Elements
        | Op::Random
        | Op::TabMatch
        | Op::Refresh => 1,
        Op::Section | Op::SectionPlus | Op::SectionMinus | Op::ToBy => 3,
        _ => 2,
    }
}
