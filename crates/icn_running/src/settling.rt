// Settling both outputs once a run has stopped.
ghost use Rattle.std.specs.Prelude.{◌≡◌, ℕ, List, Option, OnOk};
ghost use Rattle.icn_host.specs.FileMaps.{StoreState};
ghost use Rattle.icn_host.specs.Sources.{SourceCounts};
ghost use Rattle.icn_streams.specs.Handed.{call_streams};
ghost use Rattle.icn_running.specs.SettledEnds.{SettlesRun, is_broken};

use crate::fault::RunFault;
use icn_host::Sink;
use icn_machine::AfterStep;
use icn_streams::settle;
use icn_vars::Halt;

/// Whether a fault or want of memory has broken a run off.
pub fn is_broken(stopped: &Result<AfterStep, Halt>) -> bool
    ensures { result ≡ is_broken stopped.now }
{
    matches!(
        stopped,
        Err(Halt::ReadFault | Halt::WriteFault | Halt::FileFault | Halt::NoMemory)
    )
}

/// Settles both outputs.
///
/// # Errors
///
/// `WriteFault` where one of them failed, `NoMemory` where one wanted memory.
pub fn settle_outputs<O: Sink, E: Sink>(out: &mut O, err: &mut E) -> Result<(), RunFault>
    ensures settled { OnOk result ((O.pending out.new ≡ 0) × (E.pending err.new ≡ 0)) }
    ensures settles { (files : StoreState) (left : Option (List ℕ)) (counts : SourceCounts)
        → SettlesRun (call_streams files left counts (O.state out.old) (E.state err.old))
        (call_streams files left counts (O.state out.new) (E.state err.new)) result }
{
    match settle(out, err) {
        Ok(()) => Ok(()),
        Err(Halt::WriteFault) => Err(RunFault::WriteFault),
        Err(Halt::NoMemory) => Err(RunFault::NoMemory),
        Err(Halt::ReadFault) => unreachable!(),
        Err(Halt::FileFault) => unreachable!(),
        Err(Halt::Error(..)) => unreachable!(),
        Err(Halt::Ends(_)) => unreachable!(),
    }
}
