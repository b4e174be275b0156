// A source, a sink and a store of files: what they hold or have left where they tell it, and how often they have failed.
ghost use Rattle.std.specs.Prelude.{◌≡◌, ◌+◌, ◌≤◌, ℕ, List, Option, OnOk, OnErr, IfOk, IsErrOf, vec_len};
ghost use Rattle.std.specs.Io.KnownBytes.{Keeps};
ghost use Rattle.icn_host.specs.Buffers.{Extends};
ghost use Rattle.icn_host.specs.Counts.{CountsOnce, one_more};
ghost use Rattle.icn_host.specs.Sinks.{Gains, GainsPart, SinkState, StaysSettled};
ghost use Rattle.icn_host.specs.FileMaps.{Reads, ReadsPart, NotHeld, SetsFile, SetsPart, StoreState};
ghost use Rattle.icn_host.specs.Sources.{ExtendsByLine, SourceCounts, TakesLine, TakesLinePart, TakesFirst, TakesFirstPart};

use crate::fault::{Fault, LineEnd, ReadFailure};

/// Gives bytes in order.
pub trait Source {
    /// The bytes left, where the source tells them.
    ghost left: { Self → Option (List ℕ) };

    /// How often it has failed, has wanted memory, and was called, up to the greatest `u64`.
    ghost counts: { Self → SourceCounts };

    /// Appends the bytes before the next newline, and takes that newline too. The error is `Failed` where the source failed
    /// in this call, or `NoMemory`; a part of the line may be taken then.
    fn line(&mut self, into: &mut Vec<u8>) -> Result<LineEnd, Fault>
        ensures ok { IfOk result
            (TakesLine (left self.old) (left self.new) into.old.items into.new.items) }
        ensures err { OnErr result
            (TakesLinePart (left self.old) (left self.new) into.old.items into.new.items
            (IsErrOf result Fault.Failed)) }

        // Whatever comes of the call, the buffer begins with what it had. A line has no newline in it, whether or not the
        // source tells what it has left, and where there was no line nothing was appended.
        ensures kept { Extends into.old.items into.new.items }
        ensures plain { IfOk result (λ _. ExtendsByLine into.old.items into.new.items) }
        ensures none { IfOk result (λ line. line ≡ LineEnd.End → into.new.items ≡ into.old.items) }
        ensures cause { CountsOnce (counts self.old).faults (counts self.new).faults
            (IsErrOf result Fault.Failed) }
        ensures want { CountsOnce (counts self.old).wants (counts self.new).wants
            (IsErrOf result Fault.NoMemory) }
        ensures called { (counts self.new).calls ≡ one_more (counts self.old).calls };

    /// Appends and takes the first `n` bytes, or all that are left, and answers how many. The error is `Failed` where the
    /// source failed in this call, or `NoMemory`; a part of them may be taken then.
    fn take(&mut self, n: u64, into: &mut Vec<u8>) -> Result<u64, Fault>
        ensures ok { IfOk result
            (TakesFirst (left self.old) (left self.new) into.old.items into.new.items n) }
        ensures err { OnErr result
            (TakesFirstPart (left self.old) (left self.new) into.old.items into.new.items n) }

        // Whatever comes of the call, the buffer begins with what it had, and at most so many bytes came to it.
        ensures kept { Extends into.old.items into.new.items }
        ensures counted { IfOk result (λ count. vec_len into.new ≡ vec_len into.old + count) }
        ensures within { vec_len into.new ≤ vec_len into.old + n }
        ensures cause { CountsOnce (counts self.old).faults (counts self.new).faults
            (IsErrOf result Fault.Failed) }
        ensures want { CountsOnce (counts self.old).wants (counts self.new).wants
            (IsErrOf result Fault.NoMemory) }
        ensures called { (counts self.new).calls ≡ one_more (counts self.old).calls };
}

/// Takes bytes in order. It may keep some of them: they are accepted, and pending until they are settled.
pub trait Sink {
    /// The bytes accepted so far, where the sink tells them, and how often it has failed and has wanted memory, up to the
    /// greatest `u64`.
    ghost state: { Self → SinkState };

    /// How many bytes, the last that were accepted, are pending. All before them are settled: they stand where the sink puts
    /// them, whatever becomes of it.
    ghost pending: { Self → ℕ };

    /// Accepts the piece, behind what was accepted. After an `Err` a part of it from its start was accepted. What was
    /// settled stays so. It is `Failed` where the count of faults rose, `NoMemory` where that of wants did.
    fn put(&mut self, piece: &[u8]) -> Result<(), Fault>
        ensures ok { OnOk result (Gains (state self.old).held (state self.new).held piece.now) }
        ensures err { OnErr result (GainsPart (state self.old).held (state self.new).held piece.now) }
        ensures settled { StaysSettled (state self.old).held (state self.new).held (pending self.old)
            (pending self.new) }
        ensures cause { CountsOnce (state self.old).faults (state self.new).faults
            (IsErrOf result Fault.Failed) }
        ensures want { CountsOnce (state self.old).wants (state self.new).wants
            (IsErrOf result Fault.NoMemory) };

    /// Settles all that was accepted. After an `Err` some of it may be pending still, and no more than before. It is
    /// `Failed` where the count of faults rose, `NoMemory` where that of wants did.
    fn flush(&mut self) -> Result<(), Fault>
        ensures same { Keeps (state self.old).held (state self.new).held }
        ensures settled { OnOk result (pending self.new ≡ 0) }
        ensures kept { pending self.new ≤ pending self.old }
        ensures cause { CountsOnce (state self.old).faults (state self.new).faults
            (IsErrOf result Fault.Failed) }
        ensures want { CountsOnce (state self.old).wants (state self.new).wants
            (IsErrOf result Fault.NoMemory) };
}

/// Files by their names.
pub trait Files {
    /// What each name holds, where the store tells it; how often it has failed and has wanted memory, and how often a file was not
    /// there, up to the greatest `u64`.
    ghost state: { Self → StoreState };

    /// Appends the first `most + 1` bytes of a file, or all of it, so that the caller sees by the length whether it is
    /// longer than `most`. After an `Err` a part of them was appended. It is `NotThere` where there is no such file,
    /// `Failed` where the store failed, or `NoMemory`.
    fn read(&mut self, name: &str, most: u64, into: &mut Vec<u8>) -> Result<(), ReadFailure>
        ensures ok { OnOk result
            (Reads (state self.old).held name.now (most + 1) into.old.items into.new.items) }
        ensures err { OnErr result
            (ReadsPart (state self.old).held name.now (most + 1) into.old.items into.new.items) }

        // Whatever comes of the call, the buffer begins with what it had, and at most so many bytes came to it.
        ensures kept { Extends into.old.items into.new.items }
        ensures within { vec_len into.new ≤ vec_len into.old + (most + 1) }

        // A file that is not there gives nothing.
        ensures absent { IsErrOf result ReadFailure.NotThere → NotHeld (state self.old).held name.now }
        ensures nothing { IsErrOf result ReadFailure.NotThere → into.new.items ≡ into.old.items }
        ensures same { (state self.new).held ≡ (state self.old).held }
        ensures cause { CountsOnce (state self.old).counts.faults (state self.new).counts.faults
            (IsErrOf result ReadFailure.Failed) }
        ensures want { CountsOnce (state self.old).counts.wants (state self.new).counts.wants
            (IsErrOf result ReadFailure.NoMemory) }
        ensures absence { CountsOnce (state self.old).counts.absences (state self.new).counts.absences
            (IsErrOf result ReadFailure.NotThere) };

    /// Sets the whole content of a file. After an `Err` the name is absent, holds what it held, or holds a part of the new
    /// bytes from their start. Each other name stays. It is `Failed` where the store failed, or `NoMemory`.
    fn write(&mut self, name: &str, bytes: &[u8]) -> Result<(), Fault>
        ensures ok { OnOk result (SetsFile (state self.old).held (state self.new).held name.now bytes.now) }
        ensures err { OnErr result (SetsPart (state self.old).held (state self.new).held name.now bytes.now) }
        ensures cause { CountsOnce (state self.old).counts.faults (state self.new).counts.faults
            (IsErrOf result Fault.Failed) }
        ensures want { CountsOnce (state self.old).counts.wants (state self.new).counts.wants
            (IsErrOf result Fault.NoMemory) }

        // No look-up is made.
        ensures absences { (state self.new).counts.absences ≡ (state self.old).counts.absences };
}
