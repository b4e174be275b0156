// How many arguments a function takes.
ghost use Rattle.std.specs.Prelude.{◌≡◌};
ghost use Rattle.icn_defs.specs.NamedValues.{function_arguments};

use icn_text::Func;

/// How many arguments a function takes, from 0 to 6; -1 where it takes any number. It takes no memory.
pub fn function_arguments(func: Func) -> i64
    ensures { result ≡ function_arguments func }
{
    match func {
        Func::Push | Func::Put | Func::Stop | Func::Write | Func::Writes => -1,
        Func::ErrorClear => 0,
        Func::Abs
        | Func::Char
        | Func::Copy
        | Func::Cset
        | Func::Exit
        | Func::Get
        | Func::Icom
        | Func::Image
        | Func::Integer
        | Func::Key
        | Func::Move
        | Func::Numeric
        | Func::Ord
        | Func::Pop
        | Func::Pos
        | Func::Pull
        | Func::Read
        | Func::Reverse
        | Func::Set
        | Func::String
        | Func::Tab
        | Func::Table
        | Func::TypeOf
        | Func::Close
        | Func::Proc
        | Func::Args => 1,
        Func::Delete
        | Func::Iand
        | Func::Ior
        | Func::Ishift
        | Func::Ixor
        | Func::List
        | Func::Member
        | Func::Reads
        | Func::Repl
        | Func::Seq
        | Func::Sort
        | Func::Trim
        | Func::Open => 2,
        Func::Center | Func::Insert | Func::Left | Func::Map | Func::Right => 3,
        Func::Any | Func::Find | Func::Many | Func::Match | Func::Upto => 4,
        Func::Bal => 6,
    }
}
