// Why a heap did not do what was asked.
ghost use Rattle.std.specs.Prelude.{◌≡◌};
ghost use Rattle.icn_value.specs.declared.full.Full.TheVariants.{NoMemory};

use std::alloc::AllocError;

/// Why a heap made or added nothing.
#[derive(Clone, Copy, Debug, PartialEq, Eq)]
pub enum Full {
    /// The bytes of strings would have passed their limit.
    Strings {
        /// How many bytes were charged before.
        sum: u64,
        /// How many may be charged.
        limit: u64,
    },
    /// The cells of structures would have passed their limit.
    Cells {
        /// How many cells were charged before.
        sum: u64,
        /// How many may be charged.
        limit: u64,
    },
    /// The limits allow it, but there was no memory.
    NoMemory,
}

impl From<AllocError> for Full {
    ghost from_gives = { λ _ full. full ≡ NoMemory };

    fn from(_: AllocError) -> Self {
        Full::NoMemory
    }
}
