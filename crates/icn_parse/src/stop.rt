// Why nothing is read.
ghost use Rattle.std.specs.Prelude.{◌≡◌};
ghost use Rattle.icn_parse.specs.declared.stop.ParseStop.TheVariants.{NoMemory as IsNoMemory};

use std::alloc::{AllocError, AllocFailed};

/// Why nothing is read.
#[derive(Clone, Copy, Debug, PartialEq, Eq)]
pub enum ParseStop {
    /// What is looked for does not stand here.
    NotHere,
    /// Memory ran out.
    NoMemory,
}

impl From<AllocError> for ParseStop {
    ghost from_gives = { λ _ stop. stop ≡ IsNoMemory };

    fn from(_: AllocError) -> Self {
        ParseStop::NoMemory
    }
}

impl<T: Drop> From<AllocFailed<T>> for ParseStop {
    ghost from_gives = { λ _ stop. stop ≡ IsNoMemory };

    fn from(_: AllocFailed<T>) -> Self {
        ParseStop::NoMemory
    }
}
