//! The stacks of cells that a run stands on: the trait, and a stack in one block. On them the stack of one co-expression:
//! frames of procedures, marks, suspensions and operands, with the calls by which a machine changes it. A cell is kept as a
//! slot of sixteen bytes; what does not fit stands beside it, in vectors that go by the same height. The slot has the name
//! `Cell` outside, since stacks are of them.
#![tactic(auto)]

mod calls;
mod cells;
mod layout;
mod level_laws;
mod slots;
mod stack;
mod steps;
mod vec_stack;

pub use calls::Frames;
pub use layout::{CellContent, Count, NewestKind, Registers, Why};
pub use level_laws::levels_count_calls;
pub use slots::{
    StackSlot as Cell, is_plain_local, is_plain_operand, local_as_operand, operand_as_local,
};
pub use stack::Stack;
pub use vec_stack::VecStack;
