// Settling what was put.
ghost use Rattle.std.specs.Prelude.{◌≡◌, ℕ, List, Option, OnOk};
ghost use Rattle.icn_host.specs.FileMaps.{StoreState};
ghost use Rattle.icn_host.specs.Sources.{SourceCounts};
ghost use Rattle.icn_streams.specs.Handed.{call_streams};
ghost use Rattle.icn_streams.specs.Settling.{Settles, SettlesSink};

use icn_host::{Fault, Sink};
use icn_vars::Halt;

/// Settles all that both outputs have accepted, before what is put next elsewhere is seen, or what is read next was asked for.
///
/// # Errors
///
/// `WriteFault` where an output failed, `NoMemory` where one wanted memory.
pub fn settle<O: Sink, E: Sink>(out: &mut O, err: &mut E) -> Result<(), Halt>
    ensures settled { OnOk result ((O.pending out.new ≡ 0) × (E.pending err.new ≡ 0)) }
    ensures settles { (files : StoreState) (left : Option (List ℕ)) (counts : SourceCounts)
        → Settles (call_streams files left counts (O.state out.old) (E.state err.old))
        (call_streams files left counts (O.state out.new) (E.state err.new)) result }
{
    settle_one(out)?;
    settle_one(err)
}

fn settle_one<S: Sink>(sink: &mut S) -> Result<(), Halt>
    ensures settled { OnOk result (S.pending sink.new ≡ 0) }
    ensures settles { SettlesSink (S.state sink.old) (S.state sink.new) result }
{
    match sink.flush() {
        Ok(()) => Ok(()),
        Err(Fault::Failed) => Err(Halt::WriteFault),
        Err(Fault::NoMemory) => Err(Halt::NoMemory),
    }
}
