// Where the reading of an expression stands.
use crate::value::CappedTree;
use icn_tree::{Operator, Place};

/// Where the reading of an expression stands.
#[derive(Drop)]
pub enum ReadingState {
    /// A part of this level begins here.
    Starting {
        level: u32,
    },
    /// The operand of an operator begins with what is left of that operator's token.
    StartingWith {
        place: Place,
        operator: Operator,
    },
    /// A tree was read, which may go on at this level.
    Climbing {
        level: u32,
        place: Place,
        value: CappedTree,
    },
    /// A part is complete, and it is empty or not.
    Closing {
        value: CappedTree,
        present: bool,
    },
    /// All is read.
    Finished {
        value: CappedTree,
    },
    /// No expression stands here.
    Broken,
}
