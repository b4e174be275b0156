// The line of an answer that no program ran for.
ghost use Rattle.std.specs.Prelude.{◌≡◌, ◌⊎◌, ◌↔◌, ◌≤◌, OnOk, IfErr};
ghost use Rattle.icn_host.specs.Puts.{LeadsBy, PutsAll};
ghost use Rattle.icn_answer.specs.Answers.{IsFault};
ghost use Rattle.icn_answer.specs.Lines.{line_of};
ghost use Rattle.icn_answer.specs.Refusing.{PutsOwn, PutsItsLine};

use crate::answer::Answer;
use crate::lines::{FILE_FAULT, NO_MEMORY, READ_FAULT, line_of};
use icn_host::{Fault, Sink, put_line, try_put};
use std::alloc::Global;

/// Puts the line of an answer of a program with this usage line, where the image has this name, and gives the answer that stands
/// then: a line that can't be put makes it a fault.
pub fn refuse<E: Sink>(
    alloc: Global,
    usage: &[u8],
    name: &str,
    answer: Answer,
    err: &mut E,
) -> Answer
    ensures line { PutsItsLine usage.now name.now answer (E.state err.old) (E.state err.new) result }
    ensures settled { (IsFault result → ⊥) → E.pending err.new ≡ 0 }
    ensures faults { (E.state err.old).faults ≤ (E.state err.new).faults }
    ensures wants { (E.state err.old).wants ≤ (E.state err.new).wants }
{
    if answer.is_fault() {
        own_line(&answer, err);
        return answer;
    }
    match named_line(alloc, usage, name, &answer, err) {
        Ok(()) => answer,
        Err(Fault::Failed) => Answer::WriteFault,
        Err(Fault::NoMemory) => {
            try_put(NO_MEMORY, err);
            Answer::NoMemory
        }
    }
}

/// Puts a fault's own line, as far as it can be put.
pub fn own_line<E: Sink>(fault: &Answer, err: &mut E)
    requires { IsFault fault.now }
    ensures puts { PutsOwn fault.now (E.state err.old) (E.state err.new) }
    ensures faults { (E.state err.old).faults ≤ (E.state err.new).faults }
    ensures wants { (E.state err.old).wants ≤ (E.state err.new).wants }
{
    match fault {
        Answer::FileFault => try_put(FILE_FAULT, err),
        Answer::ReadFault => try_put(READ_FAULT, err),
        Answer::NoMemory => try_put(NO_MEMORY, err),
        _ => {}
    }
}

/// The answer where a file could not be written whole. Its line is put, as far as it can be put.
pub fn torn_answer<E: Sink>(fault: Fault, err: &mut E) -> Answer
    ensures failed { (result ≡ Answer.FileFault) ↔ (fault ≡ Fault.Failed) }
    ensures wanted { (result ≡ Answer.NoMemory) ↔ (fault ≡ Fault.NoMemory) }
    ensures others { (result ≡ Answer.FileFault) ⊎ (result ≡ Answer.NoMemory) }
    ensures puts { PutsOwn result (E.state err.old) (E.state err.new) }
{
    let answer = match fault {
        Fault::Failed => Answer::FileFault,
        Fault::NoMemory => Answer::NoMemory,
    };
    own_line(&answer, err);
    answer
}

// Puts the line of the answer.
fn named_line<E: Sink>(
    alloc: Global,
    usage: &[u8],
    name: &str,
    answer: &Answer,
    err: &mut E,
) -> Result<(), Fault>
    ensures ok { OnOk result
        (PutsAll (E.state err.old) (E.state err.new) (line_of usage.now name.now answer.now)) }
    ensures err { IfErr result
        (λ fault. LeadsBy fault (E.state err.old) (E.state err.new) (line_of usage.now name.now answer.now)) }
    ensures settled { OnOk result (E.pending err.new ≡ 0) }
    ensures faults { (E.state err.old).faults ≤ (E.state err.new).faults }
    ensures wants { (E.state err.old).wants ≤ (E.state err.new).wants }
{
    let line = line_of(alloc, usage, name, answer)?;
    put_line(&line, err)
}
