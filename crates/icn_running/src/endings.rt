// The end of a run: its report, and what is answered.
ghost use Rattle.std.specs.Prelude.{◌≡◌, [], Err, IfErr, IfOk, IfSome, Ok, OnOk, false};
ghost use Rattle.std.specs.Option.{option_map};
ghost use Rattle.icn_value.specs.Store.{Heap as HeapSeen};
ghost use Rattle.icn_defs.specs.Errors.{error_report};
ghost use Rattle.icn_defs.specs.Running.{Errored};
ghost use Rattle.icn_heap.specs.Extents.{IsLive, value_in};
ghost use Rattle.icn_heap.specs.Heaps.{extent_of, heap_of};
ghost use Rattle.icn_code.specs.CodeTables.{tables_of};
ghost use Rattle.icn_vars.specs.Outcomes.{IsLiveHalt};
ghost use Rattle.icn_run.specs.Step.{all_names};
ghost use Rattle.icn_control.specs.Machines.{world_reach};
ghost use Rattle.icn_running.specs.DueInstructions.{is_on};
ghost use Rattle.icn_running.specs.Reported.{AnswersEnd, AnswersHalt, AnswersMachine, AnswersStop, AnswersUnbegun, WritesAtEnd, end_objects, ending_seen, of_store};
ghost use Rattle.icn_running.specs.HaltReasons.{IsAboutLive, IsUnbegun};

use crate::fault::RunFault;
use crate::report::error_report;
use icn_code::Code;
use icn_control::Machine;
use icn_defs::Ending;
use icn_filefn::write_open_files;
use icn_frames::{Cell, Stack};
use icn_heap::Heap;
use icn_host::{Fault, Files, Sink, put_line};
use icn_machine::AfterStep;
use icn_value::{Limits, Val};
use icn_vars::Halt;
use std::alloc::Global;

// Puts the report of an ending on the error output, writes the files that are open, but at the bound, and answers the ending.
fn put_report<F: Files, E: Sink>(
    ending: Ending,
    report: &[u8],
    heap: &Heap,
    files: &mut F,
    err: &mut E,
) -> Result<Ending, RunFault>
    ensures answers { AnswersEnd (ending_seen ending) (heap_of heap.now) report.now result
        (end_objects (F.state files.old) (E.state err.old))
        (end_objects (F.state files.new) (E.state err.new)) }
    ensures settled { OnOk result (E.pending err.new ≡ 0) }
{
    put_line(report, err)?;
    end_files(ending, heap, files)
}

// Writes the files that are open, but at the bound, and answers the ending.
fn end_files<F: Files>(ending: Ending, heap: &Heap, files: &mut F) -> Result<Ending, RunFault>
    ensures ok { IfOk result (λ answer. (answer ≡ ending)
        × WritesAtEnd (ending_seen ending) (heap_of heap.now) (F.state files.old) (F.state files.new)
        (Ok tt)) }
    ensures err { IfErr result (λ fault. (broken : Fault) × (fault ≡ of_store broken)
        × WritesAtEnd (ending_seen ending) (heap_of heap.now) (F.state files.old) (F.state files.new)
        (Err broken)) }
{
    if ending == Ending::AtBound {
        return Ok(ending);
    }
    match write_open_files(heap, files) {
        Ok(()) => Ok(ending),
        Err(Fault::Failed) => Err(RunFault::FileFault),
        Err(Fault::NoMemory) => Err(RunFault::NoMemory),
    }
}

// The same of a run-time error, by its number and the value that it is about.
fn put_error<F: Files, E: Sink>(
    alloc: Global,
    code: &Code,
    heap: &Heap,
    number: u16,
    offending: Option<Val>,
    files: &mut F,
    err: &mut E,
) -> Result<Ending, RunFault>
    requires live { IfSome offending (IsLive (extent_of heap.now)) }
    ensures answers { AnswersEnd (Errored number) (heap_of heap.now) (error_report (all_names (tables_of code.now))
        (heap_of heap.now) number (option_map (value_in (extent_of heap.now)) offending)) result
        (end_objects (F.state files.old) (E.state err.old))
        (end_objects (F.state files.new) (E.state err.new)) }
    ensures settled { OnOk result (E.pending err.new ≡ 0) }
{
    let report = error_report(alloc, code, heap, number, offending)?;
    put_report(Ending::Errored(number), &report, heap, files, err)
}

// Answers what a run came to that was halted so, and puts its report.
fn end_halted<F: Files, E: Sink>(
    alloc: Global,
    code: &Code,
    heap: &Heap,
    halt: Halt,
    files: &mut F,
    err: &mut E,
) -> Result<Ending, RunFault>
    requires { IsAboutLive (extent_of heap.now) halt }
    ensures answers { AnswersHalt (all_names (tables_of code.now)) (heap_of heap.now) (extent_of heap.now)
        halt result (end_objects (F.state files.old) (E.state err.old))
        (end_objects (F.state files.new) (E.state err.new)) }
    ensures settled { E.pending err.old ≡ 0 → OnOk result (E.pending err.new ≡ 0) }
{
    match halt {
        Halt::Error(number, offending) => {
            put_error(alloc, code, heap, number, offending, files, err)
        }
        Halt::Ends(status) => end_files(Ending::Exit(status), heap, files),
        Halt::ReadFault => Err(RunFault::ReadFault),
        Halt::WriteFault => Err(RunFault::WriteFault),
        Halt::FileFault => Err(RunFault::FileFault),
        Halt::NoMemory => Err(RunFault::NoMemory),
    }
}

// Answers what a run came to that is finished or stands at its bound, and puts its report.
fn end_stopped<F: Files, E: Sink>(
    stepped: AfterStep,
    heap: &Heap,
    files: &mut F,
    err: &mut E,
) -> Result<Ending, RunFault>
    requires { is_on stepped ≡ false }
    ensures answers { AnswersStop (heap_of heap.now) stepped result
        (end_objects (F.state files.old) (E.state err.old))
        (end_objects (F.state files.new) (E.state err.new)) }
    ensures settled { E.pending err.old ≡ 0 → OnOk result (E.pending err.new ≡ 0) }
{
    match stepped {
        AfterStep::Running => unreachable!(),
        AfterStep::Over => end_files(Ending::Done, heap, files),
        AfterStep::AtBound => put_report(
            Ending::AtBound,
            b"turn bound reached\n",
            heap,
            files,
            err,
        ),
    }
}

/// Answers what a run came to whose machine has stopped so, and puts its report on the error output. Then, but at the bound, it writes
/// the files that are still open to be written, in the order in which they were opened.
///
/// # Errors
///
/// The fault that broke the run off; or `WriteFault` where the error output failed, `FileFault` where the store of files did, and
/// `NoMemory` where memory ran out.
pub fn end_run<K: Stack<Cell> + Drop, F: Files, E: Sink>(
    alloc: Global,
    code: &Code,
    m: &Machine<K>,
    stopped: Result<AfterStep, Halt>,
    files: &mut F,
    err: &mut E,
) -> Result<Ending, RunFault>
    requires stops { IfOk stopped (λ stepped. is_on stepped ≡ false) }
    requires halt { IfErr stopped (IsLiveHalt (world_reach m.now)) }
    ensures answers { AnswersMachine (all_names (tables_of code.now)) m.now stopped result
        (end_objects (F.state files.old) (E.state err.old))
        (end_objects (F.state files.new) (E.state err.new)) }
    ensures settled { E.pending err.old ≡ 0 → OnOk result (E.pending err.new ≡ 0) }
{
    match stopped {
        Ok(stepped) => end_stopped(stepped, &m.world.heap, files, err),
        Err(halt) => end_halted(alloc, code, &m.world.heap, halt, files, err),
    }
}

/// Answers what came of a run that was over before its first instruction, and puts its report. The heap that it was to have is
/// one in which nothing is made.
///
/// # Errors
///
/// `WriteFault` where the error output failed, and `NoMemory` where memory ran out.
pub fn end_unbegun<F: Files, E: Sink>(
    alloc: Global,
    code: &Code,
    limits: Limits,
    halt: Halt,
    files: &mut F,
    err: &mut E,
) -> Result<Ending, RunFault>
    requires { IsUnbegun halt }
    ensures answers { (heap : HeapSeen) → heap.files ≡ []
        → AnswersUnbegun (all_names (tables_of code.now)) heap halt result
        (end_objects (F.state files.old) (E.state err.old))
        (end_objects (F.state files.new) (E.state err.new)) }
    ensures settled { E.pending err.old ≡ 0 → OnOk result (E.pending err.new ≡ 0) }
{
    let heap = Heap::new(alloc, limits)?;
    end_halted(alloc, code, &heap, halt, files, err)
}
