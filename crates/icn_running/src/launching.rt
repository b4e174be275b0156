// A run, from its start to its end.
ghost use Rattle.std.specs.Prelude.{◌≡◌, List, [], ℕ, IfErr, IfOk, OnOk};
ghost use Rattle.icn_host.specs.FileMaps.{FileMap};
ghost use Rattle.icn_value.specs.Store.{outside_of};
ghost use Rattle.icn_code.specs.CodeTables.{tables_of};
ghost use Rattle.icn_streams.specs.Handed.{TellsOutside, call_streams};
ghost use Rattle.icn_control.specs.declared.machine.RunState.TheVariants as RunStates;
ghost use Rattle.icn_machine.specs.Starting.{launch_with};
ghost use Rattle.icn_machine.specs.Stepping.{IsReady};
ghost use Rattle.icn_running.specs.WorkLeft.{Lasts};
ghost use Rattle.icn_running.specs.Reported.{ending_seen};
ghost use Rattle.icn_running.specs.Runs.{AnswersRuns, EndsAtFirst, IsBrokenOff, ReportsRun, ReportsRuns, RunsTo, TakesSome};

use crate::endings::{end_run, end_unbegun};
use crate::fault::RunFault;
use crate::lending::run_over;
use crate::settling::{is_broken, settle_outputs};
use crate::verified_run_laws::runs_hold;
use icn_control::Machine;
use icn_defs::Ending;
use icn_frames::{Cell, Stack};
use icn_host::{Files, Sink, Source};
use icn_machine::start;
use icn_value::Limits;
use icn_verify::Verified;
use std::alloc::Global;

/// Runs verified code over stacks of this kind, with these words as the argument of its `main`, under these limits, and puts the
/// report of a run-time error or of the bound of turns on the error output. Behind that, but at the bound, the files are written
/// that it left open to be written.
///
/// # Errors
///
/// `ReadFault` where the input failed, `WriteFault` where one of the outputs did, `FileFault` where the store of files did, `NoMemory`
/// where memory ran out. The run is over then.
pub fn run<K: Stack<Cell> + Drop, F: Files, I: Source, O: Sink, E: Sink>(
    alloc: Global,
    code: &Verified,
    words: &[String],
    limits: Limits,
    files: &mut F,
    input: &mut I,
    out: &mut O,
    err: &mut E,
) -> Result<Ending, RunFault>
    // Where the input tells what it has left and the store what each name holds: how the run ends, and what a fault leaves of it.
    ensures ends { IfOk result (λ ending. (left : List ℕ) (held : FileMap) → TellsOutside
        (call_streams (F.state files.old) (I.left input.old) (I.counts input.old) (O.state out.old)
        (E.state err.old))
        (outside_of left held)
        → RunsTo (tables_of code.now.code) (launch_with words.now limits (outside_of left held))
        (ending_seen ending)
        (call_streams (F.state files.old) (I.left input.old) (I.counts input.old) (O.state out.old)
        (E.state err.old))
        (call_streams (F.state files.new) (I.left input.new) (I.counts input.new) (O.state out.new)
        (E.state err.new))) }
    ensures breaks { IfErr result (λ fault. (left : List ℕ) (held : FileMap) → TellsOutside
        (call_streams (F.state files.old) (I.left input.old) (I.counts input.old) (O.state out.old)
        (E.state err.old))
        (outside_of left held)
        → IsBrokenOff (tables_of code.now.code) (launch_with words.now limits (outside_of left held)) fault
        (call_streams (F.state files.old) (I.left input.old) (I.counts input.old) (O.state out.old)
        (E.state err.old))
        (call_streams (F.state files.new) (I.left input.new) (I.counts input.new) (O.state out.new)
        (E.state err.new))) }
    ensures first_fault { EndsAtFirst result
        (call_streams (F.state files.old) (I.left input.old) (I.counts input.old) (O.state out.old)
        (E.state err.old))
        (call_streams (F.state files.new) (I.left input.new) (I.counts input.new) (O.state out.new)
        (E.state err.new)) }
    ensures reported { (held : FileMap)
        → ReportsRun (tables_of code.now.code) (launch_with words.now limits (outside_of [] held)) result
        (call_streams (F.state files.old) (I.left input.old) (I.counts input.old) (O.state out.old)
        (E.state err.old))
        (call_streams (F.state files.new) (I.left input.new) (I.counts input.new) (O.state out.new)
        (E.state err.new)) }
    ensures taken { TakesSome
        (call_streams (F.state files.old) (I.left input.old) (I.counts input.old) (O.state out.old)
        (E.state err.old))
        (call_streams (F.state files.new) (I.left input.new) (I.counts input.new) (O.state out.new)
        (E.state err.new)) }
    ensures settled { O.pending out.old ≡ 0 → E.pending err.old ≡ 0
        → OnOk result ((O.pending out.new ≡ 0) × (E.pending err.new ≡ 0)) }
{
    runs_hold();
    match start::<K>(alloc, code.code(), words, limits) {
        Ok(mut m) => run_started(alloc, code, &mut m, files, input, out, err),
        Err(halt) => end_unbegun(alloc, code.code(), limits, halt, files, err),
    }
}

// Runs what has started to its end.
fn run_started<K: Stack<Cell> + Drop, F: Files, I: Source, O: Sink, E: Sink>(
    alloc: Global,
    code: &Verified,
    m: &mut Machine<K>,
    files: &mut F,
    input: &mut I,
    out: &mut O,
    err: &mut E,
) -> Result<Ending, RunFault>
    requires ready { IsReady (tables_of code.now.code) m.old RunStates.Running }
    requires lasts { Lasts (tables_of code.now.code) m.old }
    ensures answers { AnswersRuns (tables_of code.now.code) m.old result
        (call_streams (F.state files.old) (I.left input.old) (I.counts input.old) (O.state out.old)
        (E.state err.old))
        (call_streams (F.state files.new) (I.left input.new) (I.counts input.new) (O.state out.new)
        (E.state err.new)) }
    ensures first_fault { EndsAtFirst result
        (call_streams (F.state files.old) (I.left input.old) (I.counts input.old) (O.state out.old)
        (E.state err.old))
        (call_streams (F.state files.new) (I.left input.new) (I.counts input.new) (O.state out.new)
        (E.state err.new)) }
    ensures reported { ReportsRuns (tables_of code.now.code) m.old result
        (call_streams (F.state files.old) (I.left input.old) (I.counts input.old) (O.state out.old)
        (E.state err.old))
        (call_streams (F.state files.new) (I.left input.new) (I.counts input.new) (O.state out.new)
        (E.state err.new)) }
    ensures taken { TakesSome
        (call_streams (F.state files.old) (I.left input.old) (I.counts input.old) (O.state out.old)
        (E.state err.old))
        (call_streams (F.state files.new) (I.left input.new) (I.counts input.new) (O.state out.new)
        (E.state err.new)) }
    ensures settled { OnOk result ((O.pending out.new ≡ 0) × (E.pending err.new ≡ 0)) }
{
    runs_hold();
    let stopped = run_over(alloc, m, code, files, input, out, err);
    if is_broken(&stopped) {
        return end_run(alloc, code.code(), m, stopped, files, err);
    }
    settle_outputs(out, err)?;
    end_run(alloc, code.code(), m, stopped, files, err)
}
