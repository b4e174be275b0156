//! What the programs that test values share: the reader of a case's words, the writer of values, the world of a case, and its locals and
//! names.
#![tactic(auto)]

mod locals;
mod names;
mod showing;
mod words;
mod worlds;

pub use locals::{Slots, no_locals};
pub use names::OneRecord;
pub use showing::{
    push_bytes, push_error, push_escaped, push_escaped_cset, push_integer, push_item,
    push_printable, push_value,
};
pub use words::{add, members, number, plain, split, split_word, text_value};
pub use worlds::{add_argument, add_global, add_static, new_world, spaced_value};
