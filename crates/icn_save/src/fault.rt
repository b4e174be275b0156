// Why bytes are no save.
ghost use Rattle.std.specs.Prelude.{◌≡◌};
ghost use Rattle.icn_save.specs.declared.fault.SaveFault.TheVariants.{NoMemory};

use icn_tree::Rule;
use std::alloc::{AllocError, AllocFailed};
use thiserror::Error;

/// Why bytes are not read as a save.
#[derive(Clone, Copy, Debug, PartialEq, Eq, Error)]
pub enum SaveFault {
    /// The bytes break a rule from G1 to G4: the first in this order.
    #[error("the bytes are no save: {0:?}")]
    Broken(Rule),
    /// Memory ran out.
    #[error("no memory")]
    NoMemory,
}

impl From<AllocError> for SaveFault {
    ghost from_gives = { λ _ fault. fault ≡ NoMemory };

    fn from(_: AllocError) -> Self {
        SaveFault::NoMemory
    }
}

impl<T: Drop> From<AllocFailed<T>> for SaveFault {
    ghost from_gives = { λ _ fault. fault ≡ NoMemory };

    fn from(_: AllocFailed<T>) -> Self {
        SaveFault::NoMemory
    }
}
