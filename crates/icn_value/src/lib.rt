//! The plain values that code and its machine hold, and the definitions of values and of the store that they stand for.
#![tactic(auto)]

mod cset;
mod full;
mod item;
mod limits;
mod mode;
mod residual;
mod val;

pub use cset::Cset;
pub use full::Full;
pub use item::{Item, KeywordVariable, Pair, Root, VarRef};
pub use limits::Limits;
pub use mode::FileMode;
pub use residual::{Mover, Residual};
pub use val::{File, Span, Val};
