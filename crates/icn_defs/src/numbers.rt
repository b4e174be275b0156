// The operation, the function and the keyword of a number.
ghost use Rattle.std.specs.Prelude.{◌≡◌};
ghost use Rattle.icn_defs.specs.Numbers.{func_of, keyword_of, op_of};

use icn_text::{Func, Keyword, Op};

/// The operation of a number, or none where no operation has it. It takes no memory.
pub fn op_numbered(number: u32) -> Option<Op>
    ensures { result ≡ op_of number }
{
    Op::ALL
        .iter()
        .copied()
        .find(|op| u32::from(op.number()) == number)
}

/// The function of a number, or none where no function has it. It takes no memory.
pub fn func_numbered(number: u32) -> Option<Func>
    ensures { result ≡ func_of number }
{
    Func::ALL
        .iter()
        .copied()
        .find(|func| u32::from(func.number()) == number)
}

/// The keyword of a number, or none where no keyword has it. It takes no memory.
pub fn keyword_numbered(number: u32) -> Option<Keyword>
    ensures { result ≡ keyword_of number }
{
    Keyword::ALL
        .iter()
        .copied()
        .find(|keyword| u32::from(keyword.number()) == number)
}
