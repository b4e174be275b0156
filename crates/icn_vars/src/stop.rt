// Why a variable was not read or assigned.
ghost use Rattle.std.specs.Prelude.{◌≡◌};
ghost use Rattle.icn_vars.specs.Stops.{halt_of, stop_of};
ghost use Rattle.icn_vars.specs.declared.outcome.Halt.TheVariants.{NoMemory as NoMemoryHalt};
ghost use Rattle.icn_vars.specs.declared.stop.Stop.TheVariants.{NoMemory};

use crate::outcome::Halt;
use icn_value::{Full, Val};
use std::alloc::AllocError;

/// Why a variable was not read or assigned.
#[derive(Clone, Copy, Debug, PartialEq, Eq)]
pub enum Stop {
    /// A run-time error by its number, with the value that it is about, if there is one.
    Error(u16, Option<Val>),
    /// There was no memory.
    NoMemory,
}

impl From<Full> for Stop {
    ghost from_gives = { λ full stop. stop ≡ stop_of full };

    fn from(full: Full) -> Self {
        match full {
            Full::Strings { .. } => Stop::Error(306, None),
            Full::Cells { .. } => Stop::Error(307, None),
            Full::NoMemory => Stop::NoMemory,
        }
    }
}

impl From<AllocError> for Stop {
    ghost from_gives = { λ _ stop. stop ≡ NoMemory };

    fn from(_: AllocError) -> Self {
        Stop::NoMemory
    }
}

impl From<Stop> for Halt {
    ghost from_gives = { λ stop halt. halt ≡ halt_of stop };

    fn from(stop: Stop) -> Self {
        match stop {
            Stop::Error(number, offending) => Halt::Error(number, offending),
            Stop::NoMemory => Halt::NoMemory,
        }
    }
}

impl From<AllocError> for Halt {
    ghost from_gives = { λ _ halt. halt ≡ NoMemoryHalt };

    fn from(_: AllocError) -> Self {
        Halt::NoMemory
    }
}
