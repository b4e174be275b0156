// Why bytes are no image.
ghost use Rattle.std.specs.Prelude.{◌≡◌};
ghost use Rattle.icn_image.specs.declared.fault.ImageFault.TheVariants.{NoMemory};

use icn_tree::Rule;
use std::alloc::{AllocError, AllocFailed};
use thiserror::Error;

/// Why bytes are not read as code.
#[derive(Clone, Copy, Debug, PartialEq, Eq, Error)]
pub enum ImageFault {
    /// The bytes break a rule from I1 to I5: the first from the left.
    #[error("the bytes are no image: {0:?}")]
    Broken(Rule),
    /// Memory ran out.
    #[error("no memory")]
    NoMemory,
}

impl From<AllocError> for ImageFault {
    ghost from_gives = { λ _ fault. fault ≡ NoMemory };

    fn from(_: AllocError) -> Self {
        ImageFault::NoMemory
    }
}

impl<T: Drop> From<AllocFailed<T>> for ImageFault {
    ghost from_gives = { λ _ fault. fault ≡ NoMemory };

    fn from(_: AllocFailed<T>) -> Self {
        ImageFault::NoMemory
    }
}
