// The top call.
ghost use Rattle.std.specs.Prelude.{◌≡◌, ◌⊎◌, ℕ, All, List, [], Option, Some, Ok, map, string_bytes, IfErr, IfSome, OnOk, None};
ghost use Rattle.std.specs.Option.{option_map};
ghost use Rattle.icn_host.specs.Counts.{Rose};
ghost use Rattle.icn_host.specs.FileMaps.{FileMap};
ghost use Rattle.icn_host.specs.Puts.{LeadsBy, PutsAll};
ghost use Rattle.icn_host.specs.Sinks.{SinkState};
ghost use Rattle.icn_host.specs.Sources.{SourceCounts};
ghost use Rattle.icn_code.specs.CodeTables.{tables_of};
ghost use Rattle.icn_value.specs.Store.{outside_of};
ghost use Rattle.icn_streams.specs.Handed.{TellsOutside, call_streams};
ghost use Rattle.icn_answer.specs.Answers.{IsFault, IsRefusal, IsAbsence, IsCommand};
ghost use Rattle.icn_run_answer.specs.CountCauses.{EndsAtFirst, RunEndsAtFirst};
ghost use Rattle.icn_running.specs.Runs.{TakesSome};
ghost use Rattle.icn_run_answer.specs.FaultAnswers.{IsOfRun};
ghost use Rattle.icn_run_answer.specs.Reporting.{LineStands, Reports};
ghost use Rattle.icont_words.specs.Asking.{run_seen};
ghost use Rattle.icont_words.specs.Words.{Translate, Link, Generate, Asks, ComeTo};
ghost use Rattle.icn_text.specs.WordTexts.{texts};
ghost use Rattle.icont_units.specs.Files.{files_named};
ghost use Rattle.icont_units.specs.Generated.{sizes_line};
ghost use Rattle.icn_run_answer.specs.InputLeft.{LosesSome};
ghost use Rattle.icn_run_answer.specs.OutsideLeft.{LeavesOutside};
ghost use Rattle.icn_run_answer.specs.PendingBytes.{LeavesSettled, pending_bytes};
ghost use Rattle.icont_units.specs.Units.{Load, Member};
ghost use Rattle.icont_top.specs.Answered.{AsksForNumber, IsAnswered, IsCommanded, MissesText, TellsLink};
ghost use Rattle.icont_top.specs.Answering.{IsDone, RunsAsAsked};
ghost use Rattle.icont_top.specs.Asking.{IsReadyProgram, IsTold, words_answer};
ghost use Rattle.icont_top.specs.Job.{AsksForUnits, run_launch, ucode_files};
ghost use Rattle.icont_top.specs.Outcomes.{HasWritten, HoldsWritten, IsComplete, IsReadBack, LeavesFiles, AnswersCommand};
ghost use Rattle.icont_top.specs.Running.{HasRun, IsOver, IsRanOrBroken, PutsSizes, is_done, put_answer};
ghost use Rattle.icont_top.specs.Usage.{usage};
ghost use Rattle.icont_top.specs.Writing.{texts_seen};

use crate::loading::{LoadedProgram, linked_program, numbered_program, translate_sources};
use crate::writing::{FileToWrite, write_all};
use icn_answer::{Answer, own_line, refuse, torn_answer};
use icn_defs::Ending;
use icn_frames::Cell;
use icn_host::{Fault, Files, Sink, Source, put_line};
use icn_image::one_spelling;
use icn_run_answer::broken_answer;
use icn_running::run;
use icn_segments::RawStack;
use icn_value::Limits;
use icn_verify::{Verified, one_fault};
use icont_units::sizes_line;
use icont_words::{Run, Task, WordsFault, one_reading, read_command};
use law_outside::outsides_grow;
use std::alloc::Global;

const USAGE: &[u8] =
    b"usage: icont [-c] [-o name] [-n turns] [-g number] file ... [-x argument ...]\n";

/// What is to be done with a program: the name of its image, where one is said; how it is run; and its number, where it is that of one.
#[derive(Clone, Copy)]
pub struct Plan<'a> {
    pub image: Option<&'a str>,
    pub run: Option<Run<'a>>,
    pub number: Option<u16>,
}

/// All that the program `icont` does, one of three tasks by the words, which begin with the program's name. With `-c` it writes to
/// `files` the ucode of the sources that the words name. Else it links the files that they name, and those that these link, and
/// writes the image of the program; with `-x` it runs the program then over `input`, `out` and `err`. With `-g` it does so with the
/// program of a number, and puts the sizes of that program on `out` where it was done. The line of an answer goes to `err` too.
pub fn icont_main<F: Files, I: Source, O: Sink, E: Sink>(
    alloc: Global,
    words: &[String],
    files: &mut F,
    input: &mut I,
    out: &mut O,
    err: &mut E,
) -> Answer
    // Where the files and the input tell their content, the job was done, or a fault is answered and leaves a part of it.
    ensures outcome { IfSome (F.state files.old).held
        (λ held. IfSome (I.left input.old)
        (λ left. AnswersCommand (map string_bytes words.now) held left result
        (call_streams (F.state files.old) (I.left input.old) (I.counts input.old) (O.state out.old)
        (E.state err.old))
        (call_streams (F.state files.new) (I.left input.new) (I.counts input.new) (O.state out.new)
        (E.state err.new)))) }

    // Where no count of faults rose, no fault is answered but want of memory.
    ensures faultless { ¬ Rose (F.state files.old).counts.faults (F.state files.new).counts.faults
        → ¬ Rose (I.counts input.old).faults (I.counts input.new).faults
        → ¬ Rose (O.state out.old).faults (O.state out.new).faults
        → ¬ Rose (E.state err.old).faults (E.state err.new).faults
        → IsFault result → result ≡ Answer.NoMemory }

    // Where an image was written, its name holds the image of a code that `iconx` takes, and whose runs are what the program is: for
    // sources alone what they mean. Where units were, their texts are there, and are read back as these units. A program that was run
    // found its image there as it began, and may have written that name itself.
    ensures headline { HasWritten result
        → IfSome (F.state files.old).held
        (λ held. HoldsWritten (map string_bytes words.now) held result (F.state files.new).held) }

    // Where the files tell their content, it is said which of them changed, whatever the input tells, but for those that a program
    // wrote that was run: these are said by `outcome`. One is in part only where the store failed or wanted memory.
    ensures written { IfSome (F.state files.old).held
        (λ held. LeavesFiles (map string_bytes words.now) held result (F.state files.old)
        (F.state files.new)) }

    // Every other answer's line was put, whatever the files and the input tell; of a run, its report behind what it put.
    ensures line { IsFault result
        ⊎ LineStands usage [] result (E.state err.old) (E.state err.new) }

    // A fault's own line was put too, behind what was put of another answer's line or by a run: less than the whole of it is there
    // only where the error output's count of faults, or of its wants of memory, rose in that put.
    ensures fault_line { Reports usage [] (E.state err.old) (E.state err.new) result }

    // Where the files tell their content, the answer is the one that the words and the files ask for, or a fault.
    ensures answered { IfSome (F.state files.old).held
        (λ held. IsAnswered (map string_bytes words.now) held result) }

    // Where the words and the files ask for files to be written, they were, or a fault is answered.
    ensures complete { IfSome (F.state files.old).held
        (λ held. IsComplete (map string_bytes words.now) held result) }

    // The words are faulty, and in which way, exactly where they come to that.
    ensures command { IsCommanded (map string_bytes words.now) result }

    // Where the first linked file that is not there has a name that is a text, that is told only where that count rose.
    ensures links { IfSome (F.state files.old).held (λ held. MissesText (map string_bytes words.now) held
        → IsFault result ⊎ Rose (F.state files.old).counts.absences (F.state files.new).counts.absences) }

    // Where it is told that a linked file is not there, whatever the files tell, there are members that are refused so: for the first
    // file that they miss the count of absences rose, or its name is no text. Nothing is said of the program of a number.
    ensures missed { (AsksForNumber (map string_bytes words.now) → ⊥)
        → TellsLink result (F.state files.old).counts.absences (F.state files.new).counts.absences }

    // Where the input tells what it has left, some first bytes of it were taken, whatever the files tell.
    ensures input { IfSome (I.left input.old) (λ left. LosesSome left (I.left input.new)) }

    // A refusal leaves the files, the output and the input as they were; an answer that no run gives leaves the output and the input so.
    ensures untouched { IsRefusal result → (F.state files.new).held ≡ (F.state files.old).held }
    ensures refused { (IsOfRun result → ⊥) → (O.state out.new).held ≡ (O.state out.old).held }
    ensures unread { (IsOfRun result → ⊥) → I.left input.new ≡ I.left input.old }
    ensures uncalled { (IsOfRun result → ⊥) → I.counts input.new ≡ I.counts input.old }

    // The first fault ends the call: its object's count rose once, and no other count of faults did but of the output as it is
    // settled at want of memory, and at the put of the fault's own line. An absence (also of an included file) is answered only
    // where that count rose. The store wanted memory once at most, and only where that is answered and nothing else was counted.
    ensures causes { EndsAtFirst result (IsAbsence result)
        (call_streams (F.state files.old) (I.left input.old) (I.counts input.old) (O.state out.old)
        (E.state err.old))
        (call_streams (F.state files.new) (I.left input.new) (I.counts input.new) (O.state out.new)
        (E.state err.new)) }

    // Where the files tell their content, and a run is answered, it is the run that words and files ask for, whatever the input tells.
    ensures ran { IfSome (F.state files.old).held
        (λ held. RunsAsAsked (map string_bytes words.now) held result
        (call_streams (F.state files.old) (I.left input.old) (I.counts input.old) (O.state out.old)
        (E.state err.old))
        (call_streams (F.state files.new) (I.left input.new) (I.counts input.new) (O.state out.new)
        (E.state err.new))) }

    // Where nothing was pending on the outputs before, and no fault is answered, nothing is pending behind.
    ensures settled { LeavesSettled result (pending_bytes (O.pending out.old) (E.pending err.old))
        (pending_bytes (O.pending out.new) (E.pending err.new)) }
{
    one_reading();
    one_fault();
    match read_command(alloc, words) {
        Ok(Task::Translate(names)) => translate_answer(alloc, &names, files, err),
        Ok(Task::Link { names, image, run }) => {
            link_answer(alloc, &names, image, run, files, input, out, err)
        }
        Ok(Task::Generate { number, turns }) => {
            generate_answer(alloc, number, turns, files, input, out, err)
        }
        Err(fault) => refuse(alloc, USAGE, "", words_answer(fault), err),
    }
}

// The answer to words that ask for nothing.
fn words_answer(fault: WordsFault) -> Answer
    ensures { result ≡ words_answer fault }
{
    match fault {
        WordsFault::Faulty(kind) => Answer::Command(kind),
        WordsFault::NoMemory => Answer::NoMemory,
    }
}

// Writes the ucode of the sources that these names name.
fn translate_answer<F: Files, E: Sink>(
    alloc: Global,
    names: &[&str],
    files: &mut F,
    err: &mut E,
) -> Answer
    ensures done { (words : List (List ℕ)) (left : Option (List ℕ)) (input : SourceCounts) (out : SinkState)
        → ComeTo words (Asks (Translate (texts names.now)))
        → IfSome (F.state files.old).held (λ held.
        IsDone words held result
        (call_streams (F.state files.old) left input out (E.state err.old))
        (call_streams (F.state files.new) left input out (E.state err.new))) }
    ensures reported { Reports usage [] (E.state err.old) (E.state err.new) result }
    ensures missed { TellsLink result (F.state files.old).counts.absences (F.state files.new).counts.absences }
    ensures command { IsCommand result → ⊥ }
    ensures untouched { IsRefusal result → (F.state files.new).held ≡ (F.state files.old).held }
    ensures causes { (left : Option (List ℕ)) (input : SourceCounts) (out : SinkState)
        → EndsAtFirst result (IsAbsence result)
        (call_streams (F.state files.old) left input out (E.state err.old))
        (call_streams (F.state files.new) left input out (E.state err.new)) }
    ensures settled { (out : ℕ) → LeavesSettled result (pending_bytes out (E.pending err.old))
        (pending_bytes out (E.pending err.new)) }
{
    match translate_sources(alloc, names, files) {
        Ok(texts) => texts_answer(&texts, files, err),
        Err(answer) => refuse(alloc, USAGE, "", answer, err),
    }
}

// Writes the ucode texts of units.
fn texts_answer<F: Files, E: Sink>(texts: &[FileToWrite], files: &mut F, err: &mut E) -> Answer
    ensures done { (words : List (List ℕ)) (held : FileMap) (members : List Member) (left : Option (List ℕ))
        (input : SourceCounts) (out : SinkState)
        → AsksForUnits words held (Ok members)
        → texts_seen texts.now ≡ ucode_files members → All IsReadBack members → (F.state files.old).held
        ≡ Some held
        → IsDone words held result
        (call_streams (F.state files.old) left input out (E.state err.old))
        (call_streams (F.state files.new) left input out (E.state err.new)) }
    ensures reported { Reports usage [] (E.state err.old) (E.state err.new) result }
    ensures no_refusal { IsRefusal result → ⊥ }
    ensures causes { (left : Option (List ℕ)) (input : SourceCounts) (out : SinkState)
        → EndsAtFirst result (IsAbsence result)
        (call_streams (F.state files.old) left input out (E.state err.old))
        (call_streams (F.state files.new) left input out (E.state err.new)) }
    ensures settled { (out : ℕ) → LeavesSettled result (pending_bytes out (E.pending err.old))
        (pending_bytes out (E.pending err.new)) }
{
    match write_all(files, texts) {
        Ok(()) => Answer::Wrote,
        Err(fault) => torn_answer(fault, err),
    }
}

// Links the files that these names name, writes the image of the program, and runs it where a run is asked for.
fn link_answer<F: Files, I: Source, O: Sink, E: Sink>(
    alloc: Global,
    names: &[&str],
    image: Option<&str>,
    run: Option<Run>,
    files: &mut F,
    input: &mut I,
    out: &mut O,
    err: &mut E,
) -> Answer
    ensures done { (words : List (List ℕ))
        → ComeTo words (Asks (Link (texts names.now) (option_map (λ name. name.now) image.entry)
        (option_map run_seen run.entry)))
        → IfSome (F.state files.old).held (λ held. IsDone words held result
        (call_streams (F.state files.old) (I.left input.old) (I.counts input.old) (O.state out.old)
        (E.state err.old))
        (call_streams (F.state files.new) (I.left input.new) (I.counts input.new) (O.state out.new)
        (E.state err.new))) }
    ensures reported { Reports usage [] (E.state err.old) (E.state err.new) result }
    ensures links { IfSome (F.state files.old).held
        (λ held. (members : List Member) → Load held (files_named (texts names.now)) (Ok members)
        → IsFault result ⊎ IsTold
        (Rose (F.state files.old).counts.absences (F.state files.new).counts.absences) members) }
    ensures missed { TellsLink result (F.state files.old).counts.absences (F.state files.new).counts.absences }
    ensures command { IsCommand result → ⊥ }
    ensures untouched { IsRefusal result → (F.state files.new).held ≡ (F.state files.old).held }
    ensures leaves { LeavesOutside result
        (call_streams (F.state files.old) (I.left input.old) (I.counts input.old) (O.state out.old)
        (E.state err.old))
        (call_streams (F.state files.new) (I.left input.new) (I.counts input.new) (O.state out.new)
        (E.state err.new)) }
    ensures settled { LeavesSettled result (pending_bytes (O.pending out.old) (E.pending err.old))
        (pending_bytes (O.pending out.new) (E.pending err.new)) }
{
    match linked_program(alloc, names, files) {
        Ok(program) => {
            let plan = Plan {
                image,
                run,
                number: None,
            };
            image_answer(alloc, &program, plan, files, input, out, err)
        }
        Err(answer) => refuse(alloc, USAGE, "", answer, err),
    }
}

// Writes the image of the program of a number, and runs it under this bound of turns.
fn generate_answer<F: Files, I: Source, O: Sink, E: Sink>(
    alloc: Global,
    number: u16,
    turns: u64,
    files: &mut F,
    input: &mut I,
    out: &mut O,
    err: &mut E,
) -> Answer
    ensures done { (words : List (List ℕ)) → ComeTo words (Asks (Generate number turns))
        → IfSome (F.state files.old).held (λ held. IsDone words held result
        (call_streams (F.state files.old) (I.left input.old) (I.counts input.old) (O.state out.old)
        (E.state err.old))
        (call_streams (F.state files.new) (I.left input.new) (I.counts input.new) (O.state out.new)
        (E.state err.new))) }
    ensures reported { Reports usage [] (E.state err.old) (E.state err.new) result }
    ensures command { IsCommand result → ⊥ }
    ensures untouched { IsRefusal result → (F.state files.new).held ≡ (F.state files.old).held }
    ensures leaves { LeavesOutside result
        (call_streams (F.state files.old) (I.left input.old) (I.counts input.old) (O.state out.old)
        (E.state err.old))
        (call_streams (F.state files.new) (I.left input.new) (I.counts input.new) (O.state out.new)
        (E.state err.new)) }
    ensures settled { LeavesSettled result (pending_bytes (O.pending out.old) (E.pending err.old))
        (pending_bytes (O.pending out.new) (E.pending err.new)) }
{
    match numbered_program(alloc, number) {
        Ok(program) => {
            let plan = Plan {
                image: None,
                run: Some(Run {
                    arguments: &[],
                    turns,
                }),
                number: Some(number),
            };
            image_answer(alloc, &program, plan, files, input, out, err)
        }
        Err(answer) => refuse(alloc, USAGE, "", answer, err),
    }
}

// Writes the image of a program, and runs its code where a run is asked for.
fn image_answer<F: Files, I: Source, O: Sink, E: Sink>(
    alloc: Global,
    program: &LoadedProgram,
    plan: Plan,
    files: &mut F,
    input: &mut I,
    out: &mut O,
    err: &mut E,
) -> Answer
    ensures done { (words : List (List ℕ)) (held : FileMap) (members : List Member)
        → IsReadyProgram words held members plan.entry program.now
        → (F.state files.old).held ≡ Some held → IsDone words held result
        (call_streams (F.state files.old) (I.left input.old) (I.counts input.old) (O.state out.old)
        (E.state err.old))
        (call_streams (F.state files.new) (I.left input.new) (I.counts input.new) (O.state out.new)
        (E.state err.new)) }
    ensures reported { Reports usage [] (E.state err.old) (E.state err.new) result }
    ensures no_refusal { IsRefusal result → ⊥ }
    ensures leaves { LeavesOutside result
        (call_streams (F.state files.old) (I.left input.old) (I.counts input.old) (O.state out.old)
        (E.state err.old))
        (call_streams (F.state files.new) (I.left input.new) (I.counts input.new) (O.state out.new)
        (E.state err.new)) }
    ensures settled { LeavesSettled result (pending_bytes (O.pending out.old) (E.pending err.old))
        (pending_bytes (O.pending out.new) (E.pending err.new)) }
{
    one_spelling();
    outsides_grow();
    match files.write(plan.image.unwrap_or(program.base), &program.made.image) {
        Ok(()) => match plan.run {
            Some(asked) => ran_answer(
                alloc,
                &program.made.code,
                asked,
                plan.number,
                files,
                input,
                out,
                err,
            ),
            None => Answer::Wrote,
        },
        Err(fault) => torn_answer(fault, err),
    }
}

// Runs the code of a program, and puts the line of the sizes behind it, where it is the program of a number and was done.
fn ran_answer<F: Files, I: Source, O: Sink, E: Sink>(
    alloc: Global,
    code: &Verified,
    run: Run,
    number: Option<u16>,
    files: &mut F,
    input: &mut I,
    out: &mut O,
    err: &mut E,
) -> Answer
    ensures ran { (left : List ℕ) (held : FileMap) → TellsOutside
        (call_streams (F.state files.old) (I.left input.old) (I.counts input.old) (O.state out.old)
        (E.state err.old))
        (outside_of left held)
        → HasRun (tables_of code.now.code) (run_launch (run_seen run.entry) left held) number result
        (call_streams (F.state files.old) (I.left input.old) (I.counts input.old) (O.state out.old)
        (E.state err.old))
        (call_streams (F.state files.new) (I.left input.new) (I.counts input.new) (O.state out.new)
        (E.state err.new)) }
    ensures over { (held : FileMap)
        → IsOver (tables_of code.now.code) (run_launch (run_seen run.entry) [] held) number result
        (call_streams (F.state files.old) (I.left input.old) (I.counts input.old) (O.state out.old)
        (E.state err.old))
        (call_streams (F.state files.new) (I.left input.new) (I.counts input.new) (O.state out.new)
        (E.state err.new)) }
    ensures taken { TakesSome
        (call_streams (F.state files.old) (I.left input.old) (I.counts input.old) (O.state out.old)
        (E.state err.old))
        (call_streams (F.state files.new) (I.left input.new) (I.counts input.new) (O.state out.new)
        (E.state err.new)) }
    ensures reported { Reports usage [] (E.state err.old) (E.state err.new) result }
    ensures others { IsOfRun result }
    ensures causes { RunEndsAtFirst result
        (call_streams (F.state files.old) (I.left input.old) (I.counts input.old) (O.state out.old)
        (E.state err.old))
        (call_streams (F.state files.new) (I.left input.new) (I.counts input.new) (O.state out.new)
        (E.state err.new)) }
    ensures settled { LeavesSettled result (pending_bytes (O.pending out.old) (E.pending err.old))
        (pending_bytes (O.pending out.new) (E.pending err.new)) }
{
    let answer = run_answer(alloc, code, run, files, input, out, err);
    match number {
        Some(number) => {
            if is_done(&answer) {
                sizes_answer(alloc, number, out, err)
            } else {
                answer
            }
        }
        None => answer,
    }
}

// Runs the code of a program, under its bound of turns and the other limits that stand where none are said.
fn run_answer<F: Files, I: Source, O: Sink, E: Sink>(
    alloc: Global,
    code: &Verified,
    asked: Run,
    files: &mut F,
    input: &mut I,
    out: &mut O,
    err: &mut E,
) -> Answer
    ensures ran { (left : List ℕ) (held : FileMap) → TellsOutside
        (call_streams (F.state files.old) (I.left input.old) (I.counts input.old) (O.state out.old)
        (E.state err.old))
        (outside_of left held)
        → IsRanOrBroken (tables_of code.now.code) (run_launch (run_seen asked.entry) left held) result
        (call_streams (F.state files.old) (I.left input.old) (I.counts input.old) (O.state out.old)
        (E.state err.old))
        (call_streams (F.state files.new) (I.left input.new) (I.counts input.new) (O.state out.new)
        (E.state err.new)) }
    ensures over { (held : FileMap)
        → IsOver (tables_of code.now.code) (run_launch (run_seen asked.entry) [] held) None result
        (call_streams (F.state files.old) (I.left input.old) (I.counts input.old) (O.state out.old)
        (E.state err.old))
        (call_streams (F.state files.new) (I.left input.new) (I.counts input.new) (O.state out.new)
        (E.state err.new)) }
    ensures taken { TakesSome
        (call_streams (F.state files.old) (I.left input.old) (I.counts input.old) (O.state out.old)
        (E.state err.old))
        (call_streams (F.state files.new) (I.left input.new) (I.counts input.new) (O.state out.new)
        (E.state err.new)) }
    ensures reported { Reports usage [] (E.state err.old) (E.state err.new) result }
    ensures others { IsOfRun result }
    ensures causes { RunEndsAtFirst result
        (call_streams (F.state files.old) (I.left input.old) (I.counts input.old) (O.state out.old)
        (E.state err.old))
        (call_streams (F.state files.new) (I.left input.new) (I.counts input.new) (O.state out.new)
        (E.state err.new)) }
    ensures settled { LeavesSettled result (pending_bytes (O.pending out.old) (E.pending err.old))
        (pending_bytes (O.pending out.new) (E.pending err.new)) }
{
    let standard = Limits::standard();
    let limits = Limits {
        turns: asked.turns,
        strings: standard.strings,
        cells: standard.cells,
        levels: standard.levels,
    };
    match run::<RawStack<Cell>, F, I, O, E>(
        alloc,
        code,
        asked.arguments,
        limits,
        files,
        input,
        out,
        err,
    ) {
        Ok(ending) => Answer::Ran(ending),
        Err(fault) => broken_answer(fault, out, err),
    }
}

// Whether a program was run and was done.
fn is_done(answer: &Answer) -> bool
    ensures { result ≡ is_done answer.now }
{
    matches!(answer, Answer::Ran(Ending::Done))
}

// Puts the line of the sizes of the program of a number, which was done.
fn sizes_answer<O: Sink, E: Sink>(alloc: Global, number: u16, out: &mut O, err: &mut E) -> Answer
    ensures puts { PutsSizes number result (O.state out.old) (O.state out.new) (E.state err.old)
        (E.state err.new) }
    ensures settled { E.pending err.old ≡ 0 → (IsFault result → ⊥)
        → (O.pending out.new ≡ 0) × (E.pending err.new ≡ 0) }
{
    match put_sizes(alloc, number, out) {
        Ok(()) => Answer::Ran(Ending::Done),
        Err(fault) => {
            let answer = put_answer(fault);
            own_line(&answer, err);
            answer
        }
    }
}

fn put_sizes<O: Sink>(alloc: Global, number: u16, out: &mut O) -> Result<(), Fault>
    ensures ok { OnOk result (PutsAll (O.state out.old) (O.state out.new) (sizes_line number)) }
    ensures err { IfErr result
        (λ fault. LeadsBy fault (O.state out.old) (O.state out.new) (sizes_line number)) }
    ensures settled { OnOk result (O.pending out.new ≡ 0) }
{
    let line = sizes_line(alloc, number)?;
    put_line(&line, out)
}

// The answer where a put was stopped so.
fn put_answer(fault: Fault) -> Answer
    ensures { result ≡ put_answer fault }
{
    match fault {
        Fault::Failed => Answer::WriteFault,
        Fault::NoMemory => Answer::NoMemory,
    }
}
