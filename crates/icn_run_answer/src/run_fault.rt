// The answer where a run could not go on.
ghost use Rattle.std.specs.Prelude.{◌≡◌, ℕ, List, Option};
ghost use Rattle.icn_host.specs.FileMaps.{StoreState};
ghost use Rattle.icn_host.specs.Sources.{SourceCounts};
ghost use Rattle.icn_streams.specs.Handed.{call_streams};
ghost use Rattle.icn_run_answer.specs.CountCauses.{EndsBehind, IsSettledOrFailed, SettlesBehind, TriesToSettle};
ghost use Rattle.icn_run_answer.specs.FaultAnswers.{of_run};

use icn_answer::{Answer, own_line};
use icn_host::Sink;
use icn_running::RunFault;

/// The answer where a run could not go on. Where memory was wanting, what the output still keeps is settled as far as it can be,
/// so that nothing of it is lost. Then the fault's own line is put.
pub fn broken_answer<O: Sink, E: Sink>(fault: RunFault, out: &mut O, err: &mut E) -> Answer
    ensures answer { result ≡ of_run fault }
    ensures behind { (files : StoreState) (left : Option (List ℕ)) (input : SourceCounts) → EndsBehind (of_run fault)
        (call_streams files left input (O.state out.old) (E.state err.old))
        (call_streams files left input (O.state out.new) (E.state err.new)) }
    ensures settled { fault ≡ RunFault.NoMemory
        → IsSettledOrFailed (O.pending out.new) (O.state out.old) (O.state out.new) }
{
    let answer = answer_of(fault);
    settle_in_want(fault, out);
    own_line(&answer, err);
    answer
}

// The answer to a fault. It takes no memory.
fn answer_of(fault: RunFault) -> Answer
    ensures { result ≡ of_run fault }
{
    match fault {
        RunFault::ReadFault => Answer::ReadFault,
        RunFault::WriteFault => Answer::WriteFault,
        RunFault::FileFault => Answer::FileFault,
        RunFault::NoMemory => Answer::NoMemory,
    }
}

// Settles the output where memory was wanting.
fn settle_in_want<O: Sink>(fault: RunFault, out: &mut O)
    ensures behind { SettlesBehind (of_run fault) (O.state out.old) (O.state out.new) }
    ensures settled { fault ≡ RunFault.NoMemory
        → IsSettledOrFailed (O.pending out.new) (O.state out.old) (O.state out.new) }
{
    match fault {
        RunFault::NoMemory => try_settle(out),
        RunFault::ReadFault | RunFault::WriteFault | RunFault::FileFault => {}
    }
}

// Settles an output as far as it can be.
fn try_settle<O: Sink>(out: &mut O)
    ensures tries { TriesToSettle (O.state out.old) (O.state out.new) }
    ensures settled { IsSettledOrFailed (O.pending out.new) (O.state out.old) (O.state out.new) }
{
    let _ = out.flush();
}
