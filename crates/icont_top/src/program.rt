// The whole program, from its words to its status.
ghost use Rattle.std.specs.Prelude.{◌≡◌, IfOk, OnErr, map, string_bytes};
ghost use Rattle.std.specs.Process.{exit_status};
ghost use Rattle.icn_host.specs.Puts.{Puts};
ghost use Rattle.icn_streams.specs.Handed.{call_streams};
ghost use Rattle.icn_answer.specs.declared.answer.Answer.TheVariants.{NoMemory};
ghost use Rattle.icn_answer.specs.Answers.{status_of};
ghost use Rattle.icn_answer.specs.Lines.{fault_line};
ghost use Rattle.icn_run_answer.specs.PendingBytes.{pending_bytes};
ghost use Rattle.icont_top.specs.WholeCall.{EndsBy};

use crate::top::icont_main;
use icn_answer::{Answer, own_line};
use icn_host::{Files, Sink, Source};
use std::alloc::{AllocError, Global};
use std::process::ExitCode;

/// The program `icont` over the objects that it is handed: what its words, which begin with the program's name, come to by
/// `icont_main`, as a status. Where there was no memory for the words, that is answered.
pub fn program_status<F: Files, I: Source, O: Sink, E: Sink>(
    alloc: Global,
    words: Result<Vec<String>, AllocError>,
    files: &mut F,
    input: &mut I,
    out: &mut O,
    err: &mut E,
) -> ExitCode
    // The status is that of an answer, of which all is so that `icont_main` says.
    ensures status { IfOk words (λ words. EndsBy (map string_bytes words.items)
        (call_streams (F.state files.old) (I.left input.old) (I.counts input.old) (O.state out.old)
        (E.state err.old))
        (call_streams (F.state files.new) (I.left input.new) (I.counts input.new) (O.state out.new)
        (E.state err.new))
        (pending_bytes (O.pending out.old) (E.pending err.old))
        (pending_bytes (O.pending out.new) (E.pending err.new)) result) }

    // Without words, want of memory is answered, and its line put; all else stays as it was.
    ensures wordless { OnErr words (exit_status result ≡ status_of NoMemory) }
    ensures wordless_line { OnErr words (Puts (E.state err.old) (E.state err.new) (fault_line NoMemory)) }
    ensures wordless_files { OnErr words ((F.state files.new).held ≡ (F.state files.old).held) }
    ensures wordless_input { OnErr words (I.left input.new ≡ I.left input.old) }
    ensures wordless_output { OnErr words (O.state out.new ≡ O.state out.old) }
{
    match words {
        Ok(words) => call_status(alloc, &words, files, input, out, err),
        Err(_) => wordless_status(err),
    }
}

// The status of what the words come to.
fn call_status<F: Files, I: Source, O: Sink, E: Sink>(
    alloc: Global,
    words: &[String],
    files: &mut F,
    input: &mut I,
    out: &mut O,
    err: &mut E,
) -> ExitCode
    ensures { EndsBy (map string_bytes words.now)
        (call_streams (F.state files.old) (I.left input.old) (I.counts input.old) (O.state out.old)
        (E.state err.old))
        (call_streams (F.state files.new) (I.left input.new) (I.counts input.new) (O.state out.new)
        (E.state err.new))
        (pending_bytes (O.pending out.old) (E.pending err.old))
        (pending_bytes (O.pending out.new) (E.pending err.new)) result }
{
    let answer = icont_main(alloc, words, files, input, out, err);
    ExitCode::from(answer.code())
}

// Puts the line of want of memory, and gives its status.
fn wordless_status<E: Sink>(err: &mut E) -> ExitCode
    ensures status { exit_status result ≡ status_of NoMemory }
    ensures line { Puts (E.state err.old) (E.state err.new) (fault_line NoMemory) }
{
    own_line(&Answer::NoMemory, err);
    ExitCode::from(Answer::NoMemory.code())
}
