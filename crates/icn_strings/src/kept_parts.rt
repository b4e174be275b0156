// What stays of a region as memory is given back.
use crate::closed::Closed;

/// The parts that stay: the first so many of those in the block, where they are, and behind them others, which are written anew.
#[derive(Drop)]
pub struct KeptParts {
    /// How many stay where they are.
    pub same: usize,

    /// The others.
    pub fresh: Closed,
}
