// Why units can't be joined.
ghost use Rattle.std.specs.Prelude.{◌≡◌};
ghost use Rattle.icn_link.specs.declared.fault.LinkFault.TheVariants.{NoMemory};

use icn_tree::Bytes;
use std::alloc::{AllocError, AllocFailed};

/// Where a declaration stands.
#[derive(Clone, Copy, Debug, PartialEq, Eq)]
pub struct DeclPlace {
    /// The place of its unit among the units, from 0 on.
    pub unit: u64,
    /// Its place among the declarations of its unit, from 0 on.
    pub decl: u64,
}

/// Why units can't be joined. A unit is named by its place among the units, from 0 on.
#[derive(Debug, Drop)]
pub enum LinkFault {
    /// A name is procedure or record in two units: the later one, the name, and both declarations.
    K1 {
        unit: u64,
        name: Bytes,
        first: DeclPlace,
        second: DeclPlace,
    },
    /// A unit links one of this base name, which is not there.
    K2 {
        unit: u64,
        name: Bytes,
    },
    /// A unit has a declaration `invocable` of this name, and no procedure, record or function has it.
    K4 {
        unit: u64,
        name: Bytes,
    },
    /// The program is too large: the first number that is above its bound. One past 64 bits is told as the greatest number of 64 bits.
    K3 {
        count: u64,
    },
    /// Memory ran out.
    NoMemory,
}

impl From<AllocError> for LinkFault {
    ghost from_gives = { λ _ fault. fault ≡ NoMemory };

    fn from(_: AllocError) -> Self {
        LinkFault::NoMemory
    }
}

impl<T: Drop> From<AllocFailed<T>> for LinkFault {
    ghost from_gives = { λ _ fault. fault ≡ NoMemory };

    fn from(_: AllocFailed<T>) -> Self {
        LinkFault::NoMemory
    }
}
