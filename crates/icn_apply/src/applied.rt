// What is applied.
use icn_text::{Func, Op};

/// What is applied.
#[derive(Clone, Copy, Debug, PartialEq, Eq)]
pub enum Applied {
    /// An operation.
    Op(Op),
    /// A function.
    Func(Func),
}
