// The top call.
ghost use Rattle.std.specs.Prelude.{◌≡◌, ◌⊎◌, ℕ, List, Option, Ok, Some, map, string_bytes, IfSome};
ghost use Rattle.icn_host.specs.Counts.{Rose};
ghost use Rattle.icn_host.specs.FileMaps.{FileMap};
ghost use Rattle.icn_streams.specs.Handed.{call_streams};
ghost use Rattle.icn_host.specs.Sinks.{SinkState};
ghost use Rattle.icn_host.specs.Sources.{SourceCounts};
ghost use Rattle.icn_code.specs.CodeTables.{tables_of};
ghost use Rattle.icn_answer.specs.Answers.{IsAbsence, IsCommand, IsFault, IsRefusal};
ghost use Rattle.icn_run_answer.specs.CountCauses.{EndsAtFirst, RunEndsAtFirst};
ghost use Rattle.icn_run_answer.specs.FaultAnswers.{IsOfRun};
ghost use Rattle.icn_run_answer.specs.InputLeft.{LosesSome};
ghost use Rattle.icn_run_answer.specs.OutsideLeft.{LeavesOutside};
ghost use Rattle.icn_run_answer.specs.PendingBytes.{LeavesSettled, pending_bytes};
ghost use Rattle.icn_run_answer.specs.Reporting.{LineStands, Reports};
ghost use Rattle.iconx_top.specs.Answered.{IsAnswered};
ghost use Rattle.iconx_top.specs.Asking.{migration_reading, run_reading};
ghost use Rattle.iconx_top.specs.Commanded.{IsCommanded};
ghost use Rattle.iconx_top.specs.Job.{IsMigration};
ghost use Rattle.iconx_top.specs.Loading.{CountsAbsence, IsLoaded};
ghost use Rattle.iconx_top.specs.Outcomes.{AnswersCommand, HoldsMigration, LeavesFiles, RunsAsAsked};
ghost use Rattle.iconx_top.specs.Usage.{usage};
ghost use Rattle.iconx_top.specs.Words.{AsksToWrite, words_reading as read, image_name};

use crate::load::{load, second_image};
use crate::words::{CommandAsked, MigrationAsked, RunAsked, read_command};
use icn_answer::{Answer, refuse, torn_answer};
use icn_frames::Cell;
use icn_host::{Files, Sink, Source};
use icn_run_answer::broken_answer;
use icn_running::run;
use icn_segments::RawStack;
use icn_verify::Verified;
use std::alloc::Global;

const USAGE: &[u8] =
    b"usage: iconx [-n turns] [-s bytes] [-b cells] [-l levels] image [argument ...] | iconx -m new image\n";

/// All that the program `iconx` does: it reads the image that the words name from `files`, and runs its code over `input`, `out`
/// and `err`, or writes the second version of it under a new name. The line of an answer goes to `err` too. The words begin with
/// the program's name.
pub fn iconx_main<F: Files, I: Source, O: Sink, E: Sink>(
    alloc: Global,
    words: &[String],
    files: &mut F,
    input: &mut I,
    out: &mut O,
    err: &mut E,
) -> Answer
    // Where the files and the input tell their content, the job was done, or a fault is answered and leaves a part of it.
    ensures outcome { IfSome (F.state files.old).held
        (λ held.
        IfSome (I.left input.old) (λ left. AnswersCommand (map string_bytes words.now) held left result
        (call_streams (F.state files.old) (I.left input.old) (I.counts input.old) (O.state out.old)
        (E.state err.old))
        (call_streams (F.state files.new) (I.left input.new) (I.counts input.new) (O.state out.new)
        (E.state err.new)))) }
    // Where no count of faults rose, no fault is answered but want of memory.
    ensures faultless { ¬ Rose (F.state files.old).counts.faults (F.state files.new).counts.faults
        → ¬ Rose (I.counts input.old).faults (I.counts input.new).faults
        → ¬ Rose (O.state out.old).faults (O.state out.new).faults
        → ¬ Rose (E.state err.old).faults (E.state err.new).faults
        → IsFault result → result ≡ Answer.NoMemory }

    // Every other answer's line was put, whatever the files and the input tell; a run's report, behind what the program itself put.
    ensures line { IsFault result
        ⊎ LineStands usage (image_name (read (map string_bytes words.now))) result
        (E.state err.old) (E.state err.new) }

    // A fault's own line was put too, behind what was put of another answer's line or by the program: less than the whole of it is
    // there only where the error output's count of faults, or of its wants of memory, rose in that put.
    ensures fault_line { Reports usage (image_name (read (map string_bytes words.now)))
        (E.state err.old) (E.state err.new) result }

    // Where the files tell their content, the answer is the one that the words and the files ask for, or a fault.
    ensures answered { IfSome (F.state files.old).held
        (λ held. IsAnswered (map string_bytes words.now) held result) }

    // The words are faulty exactly where they name no run of an image, in that way.
    ensures command { IsCommanded (read (map string_bytes words.now)) result }

    // Where the input tells what it has left, some first bytes of it were taken, whatever the files tell.
    ensures input { IfSome (I.left input.old) (λ left. LosesSome left (I.left input.new)) }

    // An answer that no run gives leaves the output and the input as they were.
    ensures refused { (IsOfRun result → ⊥) → (O.state out.new).held ≡ (O.state out.old).held }
    ensures unread { (IsOfRun result → ⊥) → I.left input.new ≡ I.left input.old }
    ensures uncalled { (IsOfRun result → ⊥) → I.counts input.new ≡ I.counts input.old }

    // The files stay as they were where the words do not ask for a new image and the answer is not one that a run may give, and where
    // it is a refusal.
    ensures files { (AsksToWrite (read (map string_bytes words.now)) → ⊥) → (IsOfRun result → ⊥)
        → (F.state files.new).held ≡ (F.state files.old).held }
    ensures unwritten { IsRefusal result → (F.state files.new).held ≡ (F.state files.old).held }

    // Where the files tell their content, and an image was written, its name holds the second version of the code that was read.
    ensures written { IfSome (F.state files.old).held
        (λ held. result ≡ Answer.Wrote
        → HoldsMigration (map string_bytes words.now) held (F.state files.new).held) }

    // Where the files tell their content, it is said what became of them, whatever the input tells; the new image is in part only
    // where the store failed or wanted memory.
    ensures leaves { IfSome (F.state files.old).held
        (λ held. LeavesFiles (map string_bytes words.now) held result (F.state files.old)
        (F.state files.new)) }

    // The first fault ends the call: its object's count rose once, and no other count did but of the output as it is settled at
    // want of memory, and at the put of the fault's own line. An absence is answered only where that count rose. The store wanted
    // memory once at most, and only where that is answered and nothing else was counted.
    ensures causes { EndsAtFirst result (IsAbsence result)
        (call_streams (F.state files.old) (I.left input.old) (I.counts input.old) (O.state out.old)
        (E.state err.old))
        (call_streams (F.state files.new) (I.left input.new) (I.counts input.new) (O.state out.new)
        (E.state err.new)) }

    // The count of absences rose, once, exactly where the image is not there; that is answered, or a fault. A run may miss files of its
    // own.
    ensures absences { (IsOfRun result → ⊥)
        → CountsAbsence result (F.state files.old).counts.absences (F.state files.new).counts.absences }

    // Where the files tell their content, and a run is answered, it is the run that words and files ask for, whatever the input tells.
    ensures ran { IfSome (F.state files.old).held
        (λ held. RunsAsAsked (map string_bytes words.now) held result
        (call_streams (F.state files.old) (I.left input.old) (I.counts input.old) (O.state out.old)
        (E.state err.old))
        (call_streams (F.state files.new) (I.left input.new) (I.counts input.new) (O.state out.new)
        (E.state err.new))) }

    // Where nothing was pending on the outputs before, and no fault is answered, nothing is pending behind.
    ensures settled { LeavesSettled result (pending_bytes (O.pending out.old) (E.pending err.old))
        (pending_bytes (O.pending out.new) (E.pending err.new)) }
{
    match read_command(words) {
        Ok(CommandAsked::Run(asked)) => image_answer(alloc, asked, files, input, out, err),
        Ok(CommandAsked::Migration(asked)) => migration_answer(alloc, asked, files, err),
        Err(kind) => refuse(alloc, USAGE, "", Answer::Command(kind), err),
    }
}

// Does what the image asks for.
fn image_answer<F: Files, I: Source, O: Sink, E: Sink>(
    alloc: Global,
    run: RunAsked,
    files: &mut F,
    input: &mut I,
    out: &mut O,
    err: &mut E,
) -> Answer
    ensures outcome { (words : List (List ℕ)) → read words ≡ run_reading run.entry
        → IfSome (F.state files.old).held
        (λ held. IfSome (I.left input.old) (λ left. AnswersCommand words held left result
        (call_streams (F.state files.old) (I.left input.old) (I.counts input.old) (O.state out.old)
        (E.state err.old))
        (call_streams (F.state files.new) (I.left input.new) (I.counts input.new) (O.state out.new)
        (E.state err.new)))) }
    ensures ran { (words : List (List ℕ)) → read words ≡ run_reading run.entry
        → IfSome (F.state files.old).held (λ held. RunsAsAsked words held result
        (call_streams (F.state files.old) (I.left input.old) (I.counts input.old) (O.state out.old)
        (E.state err.old))
        (call_streams (F.state files.new) (I.left input.new) (I.counts input.new) (O.state out.new)
        (E.state err.new))) }
    ensures reported { Reports usage run.entry.image.now (E.state err.old) (E.state err.new) result }
    ensures answered { (words : List (List ℕ)) → read words ≡ run_reading run.entry
        → IfSome (F.state files.old).held (λ held. IsAnswered words held result) }
    ensures command { IsCommand result → ⊥ }
    ensures files { (IsOfRun result → ⊥) → (F.state files.new).held ≡ (F.state files.old).held }
    ensures absences { (IsOfRun result → ⊥)
        → CountsAbsence result (F.state files.old).counts.absences (F.state files.new).counts.absences }
    ensures written { (words : List (List ℕ)) → read words ≡ run_reading run.entry
        → IfSome (F.state files.old).held
        (λ held. LeavesFiles words held result (F.state files.old) (F.state files.new)) }
    ensures leaves { LeavesOutside result
        (call_streams (F.state files.old) (I.left input.old) (I.counts input.old) (O.state out.old)
        (E.state err.old))
        (call_streams (F.state files.new) (I.left input.new) (I.counts input.new) (O.state out.new)
        (E.state err.new)) }
    ensures settled { LeavesSettled result (pending_bytes (O.pending out.old) (E.pending err.old))
        (pending_bytes (O.pending out.new) (E.pending err.new)) }
{
    match load(alloc, run.image, files) {
        Ok(verified) => run_answer(alloc, &verified, run, files, input, out, err),
        Err(answer) => refuse(alloc, USAGE, run.image, answer, err),
    }
}

// Writes the second version of an image under a new name.
fn migration_answer<F: Files, E: Sink>(
    alloc: Global,
    asked: MigrationAsked,
    files: &mut F,
    err: &mut E,
) -> Answer
    ensures outcome { (words : List (List ℕ)) (left : List ℕ) (input : SourceCounts) (out : SinkState)
        → read words ≡ migration_reading asked.entry
        → IfSome (F.state files.old).held (λ held. AnswersCommand words held left result
        (call_streams (F.state files.old) (Some left) input out (E.state err.old))
        (call_streams (F.state files.new) (Some left) input out (E.state err.new))) }
    ensures leaves { (words : List (List ℕ)) → read words ≡ migration_reading asked.entry
        → IfSome (F.state files.old).held
        (λ held. LeavesFiles words held result (F.state files.old) (F.state files.new)) }
    ensures reported { Reports usage asked.entry.image.now (E.state err.old) (E.state err.new) result }
    ensures answered { (words : List (List ℕ)) → read words ≡ migration_reading asked.entry
        → IfSome (F.state files.old).held (λ held. IsAnswered words held result) }
    ensures command { IsCommand result → ⊥ }
    ensures unwritten { IsRefusal result → (F.state files.new).held ≡ (F.state files.old).held }
    ensures causes { (left : Option (List ℕ)) (input : SourceCounts) (out : SinkState)
        → EndsAtFirst result (IsAbsence result)
        (call_streams (F.state files.old) left input out (E.state err.old))
        (call_streams (F.state files.new) left input out (E.state err.new)) }
    ensures absences { CountsAbsence result (F.state files.old).counts.absences
        (F.state files.new).counts.absences }
    ensures settled { (out : ℕ) → LeavesSettled result (pending_bytes out (E.pending err.old))
        (pending_bytes out (E.pending err.new)) }
{
    match load(alloc, asked.image, files) {
        Ok(verified) => new_image_answer(alloc, &verified, asked, files, err),
        Err(answer) => refuse(alloc, USAGE, asked.image, answer, err),
    }
}

// Writes the second version of a code under a new name.
fn new_image_answer<F: Files, E: Sink>(
    alloc: Global,
    code: &Verified,
    asked: MigrationAsked,
    files: &mut F,
    err: &mut E,
) -> Answer
    ensures outcome { (words : List (List ℕ)) (held : FileMap) (left : List ℕ)
        (input : SourceCounts) (out : SinkState)
        → (is : IsMigration words held asked.entry.new_name.now (tables_of code.now.code))
        → is.name ≡ asked.entry.image.now → (F.state files.old).held ≡ Some held
        → AnswersCommand words held left result
        (call_streams (F.state files.old) (Some left) input out (E.state err.old))
        (call_streams (F.state files.new) (Some left) input out (E.state err.new)) }
    ensures leaves { (words : List (List ℕ)) (held : FileMap)
        → IsMigration words held asked.entry.new_name.now (tables_of code.now.code)
        → (F.state files.old).held ≡ Some held
        → LeavesFiles words held result (F.state files.old) (F.state files.new) }
    ensures reported { Reports usage asked.entry.image.now (E.state err.old) (E.state err.new) result }
    ensures answered { (words : List (List ℕ)) (held : FileMap)
        → IsMigration words held asked.entry.new_name.now (tables_of code.now.code)
        → (F.state files.old).held ≡ Some held → IsAnswered words held result }
    ensures command { IsCommand result → ⊥ }
    ensures unwritten { IsRefusal result → (F.state files.new).held ≡ (F.state files.old).held }
    ensures causes { (left : Option (List ℕ)) (input : SourceCounts) (out : SinkState)
        → EndsAtFirst result (IsAbsence result)
        (call_streams (F.state files.old) left input out (E.state err.old))
        (call_streams (F.state files.new) left input out (E.state err.new)) }
    ensures absences { (F.state files.new).counts.absences ≡ (F.state files.old).counts.absences }
    ensures present { IsAbsence result → ⊥ }
    ensures settled { (out : ℕ) → LeavesSettled result (pending_bytes out (E.pending err.old))
        (pending_bytes out (E.pending err.new)) }
{
    match second_image(alloc, code) {
        Ok(image) => match files.write(asked.new_name, &image) {
            Ok(()) => Answer::Wrote,
            Err(fault) => torn_answer(fault, err),
        },
        Err(answer) => refuse(alloc, USAGE, asked.image, answer, err),
    }
}

// Runs the code of an image.
fn run_answer<F: Files, I: Source, O: Sink, E: Sink>(
    alloc: Global,
    code: &Verified,
    asked: RunAsked,
    files: &mut F,
    input: &mut I,
    out: &mut O,
    err: &mut E,
) -> Answer
    ensures outcome { (words : List (List ℕ)) (held : FileMap) → read words ≡ run_reading asked.entry
        → IsLoaded (held asked.entry.image.now) asked.entry.image.now (Ok code.now)
        → (F.state files.old).held ≡ Some held
        → IfSome (I.left input.old) (λ left. AnswersCommand words held left result
        (call_streams (F.state files.old) (I.left input.old) (I.counts input.old) (O.state out.old)
        (E.state err.old))
        (call_streams (F.state files.new) (I.left input.new) (I.counts input.new) (O.state out.new)
        (E.state err.new))) }
    ensures ran { (words : List (List ℕ)) (held : FileMap) → read words ≡ run_reading asked.entry
        → IsLoaded (held asked.entry.image.now) asked.entry.image.now (Ok code.now)
        → RunsAsAsked words held result
        (call_streams (F.state files.old) (I.left input.old) (I.counts input.old) (O.state out.old)
        (E.state err.old))
        (call_streams (F.state files.new) (I.left input.new) (I.counts input.new) (O.state out.new)
        (E.state err.new)) }
    ensures reported { (name : List ℕ)
        → Reports usage name (E.state err.old) (E.state err.new) result }
    ensures input { IfSome (I.left input.old) (λ left. LosesSome left (I.left input.new)) }
    ensures others { IsOfRun result }
    ensures causes { RunEndsAtFirst result
        (call_streams (F.state files.old) (I.left input.old) (I.counts input.old) (O.state out.old)
        (E.state err.old))
        (call_streams (F.state files.new) (I.left input.new) (I.counts input.new) (O.state out.new)
        (E.state err.new)) }
    ensures settled { LeavesSettled result (pending_bytes (O.pending out.old) (E.pending err.old))
        (pending_bytes (O.pending out.new) (E.pending err.new)) }
{
    match run::<RawStack<Cell>, F, I, O, E>(
        alloc,
        code,
        asked.arguments,
        asked.limits,
        files,
        input,
        out,
        err,
    ) {
        Ok(ending) => Answer::Ran(ending),
        Err(fault) => broken_answer(fault, out, err),
    }
}
