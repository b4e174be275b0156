// Why a call on a handed-in object gave up, and how a line ended.
ghost use Rattle.std.specs.Prelude.{◌≡◌, ◌≢◌};
ghost use Rattle.icn_host.specs.declared.fault.Fault.TheVariants.{Failed, NoMemory};
ghost use Rattle.icn_host.specs.declared.fault.ReadFailure.TheVariants.{NotThere, Failed as LookFailed, NoMemory as LookNoMemory};

use std::alloc::{AllocError, AllocFailed};

/// Why a source, a sink or a write of a file gave up.
#[derive(Clone, Copy, Debug, PartialEq, Eq)]
pub enum Fault {
    /// The object failed, and its count of faults rose or stands at its last value.
    Failed,

    /// There was no memory. A sink's count of wants rose or stands at its last value; no other count rises for it.
    NoMemory,
}

/// Why a read of a file gave up.
#[derive(Clone, Copy, Debug, PartialEq, Eq)]
pub enum ReadFailure {
    /// No file has the name, and the count of absences rose or stands at its last value.
    NotThere,

    /// The store failed, and its count of faults rose or stands at its last value.
    Failed,

    /// There was no memory. No count rises for it.
    NoMemory,
}

/// How a line ended.
#[derive(Clone, Copy, Debug, PartialEq, Eq)]
pub enum LineEnd {
    /// At a newline, which was taken.
    Whole,

    /// At the end of the input, after at least one byte.
    Last,

    /// Nothing was left, so there was no line.
    End,
}

impl From<AllocError> for Fault {
    ghost from_gives = { λ _ e. e ≡ NoMemory };

    fn from(_: AllocError) -> Self {
        Fault::NoMemory
    }
}

impl<T: Drop> From<AllocFailed<T>> for Fault {
    ghost from_gives = { λ _ e. e ≡ NoMemory };

    fn from(_: AllocFailed<T>) -> Self {
        Fault::NoMemory
    }
}

impl From<AllocError> for ReadFailure {
    ghost from_gives = { λ _ e. e ≡ LookNoMemory };

    fn from(_: AllocError) -> Self {
        ReadFailure::NoMemory
    }
}

impl From<Fault> for ReadFailure {
    ghost from_gives = { λ fault look. (look ≢ NotThere) × (fault ≡ NoMemory → look ≡ LookNoMemory)
        × (fault ≡ Failed → look ≡ LookFailed) };

    fn from(fault: Fault) -> Self {
        match fault {
            Fault::Failed => ReadFailure::Failed,
            Fault::NoMemory => ReadFailure::NoMemory,
        }
    }
}
