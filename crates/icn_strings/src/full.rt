// Why a string was not made.
ghost use Rattle.std.specs.Prelude.{◌≡◌};
ghost use Rattle.icn_strings.specs.declared.full.RegionFull.TheVariants.{NoMemory};

use std::alloc::AllocError;

/// Why a region made no string.
#[derive(Clone, Copy, Debug, PartialEq, Eq)]
pub enum RegionFull {
    /// The charge would have passed the limit.
    Strings {
        /// How many bytes were charged before.
        sum: u64,

        /// How many bytes may be charged.
        limit: u64,
    },

    /// The limit allows the charge, but there was no memory.
    NoMemory,
}

impl From<AllocError> for RegionFull {
    ghost from_gives = { λ _ full. full ≡ NoMemory };

    fn from(_: AllocError) -> Self {
        RegionFull::NoMemory
    }
}
