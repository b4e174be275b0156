// Why a run could not go on.
ghost use Rattle.std.specs.Prelude.{◌≡◌};
ghost use Rattle.icn_running.specs.SinkFaults.{of_sink};
ghost use Rattle.icn_running.specs.declared.fault.RunFault.TheVariants.{NoMemory};

use icn_host::Fault;
use std::alloc::{AllocError, AllocFailed};
use thiserror::Error;

/// Why a run could not go on.
#[derive(Clone, Copy, Debug, Drop, Error, PartialEq, Eq)]
pub enum RunFault {
    /// The input failed.
    #[error("the input failed")]
    ReadFault,
    /// The output or the error output failed.
    #[error("an output failed")]
    WriteFault,
    /// The store of files failed.
    #[error("a file failed")]
    FileFault,
    /// Memory ran out.
    #[error("memory ran out")]
    NoMemory,
}

impl From<Fault> for RunFault {
    ghost from_gives = { λ fault run. run ≡ of_sink fault };

    fn from(fault: Fault) -> Self {
        match fault {
            Fault::Failed => RunFault::WriteFault,
            Fault::NoMemory => RunFault::NoMemory,
        }
    }
}

impl From<AllocError> for RunFault {
    ghost from_gives = { λ _ run. run ≡ NoMemory };

    fn from(_: AllocError) -> Self {
        RunFault::NoMemory
    }
}

impl<T: Drop> From<AllocFailed<T>> for RunFault {
    ghost from_gives = { λ _ run. run ≡ NoMemory };

    fn from(_: AllocFailed<T>) -> Self {
        RunFault::NoMemory
    }
}
