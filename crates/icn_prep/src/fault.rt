// Why a text gives no lines.
ghost use Rattle.std.specs.Prelude.{◌≡◌};
ghost use Rattle.icn_prep.specs.declared.fault.PrepFault.TheVariants.{NoMemory};

use icn_tree::{Bytes, Rule};
use std::alloc::{AllocError, AllocFailed};

/// Why a named file gives no lines.
#[derive(Debug, Drop)]
pub enum PrepFault {
    /// The named file is not there, and the store's count of absences rose or stands at its last value.
    Missing,

    /// A rule is broken, the first in reading order.
    Broken {
        /// One of P1 to P9.
        rule: Rule,
        /// The name of the file, as it is called there.
        file: Bytes,
        /// The number of the line, or 0 where the rule is of a whole file or of all lines.
        line: u32,
    },

    /// The store failed, and its count of faults rose or stands at its last value.
    FileFault,

    /// There was no memory.
    NoMemory,
}

impl From<AllocError> for PrepFault {
    ghost from_gives = { λ _ e. e ≡ NoMemory };

    fn from(_: AllocError) -> Self {
        PrepFault::NoMemory
    }
}

impl<T: Drop> From<AllocFailed<T>> for PrepFault {
    ghost from_gives = { λ _ e. e ≡ NoMemory };

    fn from(_: AllocFailed<T>) -> Self {
        PrepFault::NoMemory
    }
}
