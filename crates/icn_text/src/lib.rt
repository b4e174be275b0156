//! Text and numbers, tied both ways, numbers as words of a command, and the tables of operations, functions and keywords.
#![tactic(auto)]

mod arithmetic;
mod digits;
mod func;
mod integer;
mod keyword;
mod op;
mod random;
mod text_laws;
mod word_number;

pub use arithmetic::{Arith, add, div, mul, power, rem, sub};
pub use digits::{Digits, decimal};
pub use func::{Func, func_named};
pub use integer::{NotInteger, read_integer};
pub use keyword::{Keyword, keyword_named};
pub use op::Op;
pub use random::{pick, random_step};
pub use text_laws::{decimal_read_back, found_integer, names_differ, one_integer};
pub use word_number::number_within;
