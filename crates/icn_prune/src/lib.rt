//! Drops from a code the procedures that nothing needs: which are kept, and the code that is left.
#![tactic(auto)]

mod entries;
mod keeping;
mod leaving;
mod places;
mod prune_laws;
mod pruning;
mod surviving;

pub use keeping::kept;
pub use prune_laws::{kept_is_least, pruned_code_fits};
pub use pruning::prune;
