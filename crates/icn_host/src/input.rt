// A reader as a source.
ghost use Rattle.std.specs.Prelude.{◌≡◌, ◌+◌, ◌≤◌, OnOk, OnErr, IfOk, IsErrOf, length, vec_len};
ghost use Rattle.std.specs.Io.KnownBytes.{IsAtEnd, Keeps};
ghost use Rattle.icn_host.specs.Counts.{CountsOnce, one_more};
ghost use Rattle.icn_host.specs.Sources.{ExtendsByLine, source_counts, TakesLine, TakesLinePart, TakesFirst, TakesFirstPart};
ghost use Rattle.icn_host.specs.Buffers.{Extends};

use crate::bytes::{line_len, take_first};
use crate::fault::{Fault, LineEnd};
use crate::retry::read_some;
use crate::traits::Source;
use std::io::Read;

// A longer line is a failure.
const LONGEST_LINE: u64 = 1099511627776;

// A reader, and the bytes that were read ahead, from `at` up to `end`.
#[derive(Drop)]
struct Ahead<R> {
    reader: R,
    bytes: [u8; 4096],
    at: usize,
    end: usize,
    ghost from_start: { at ≤ end },
    ghost within: { end ≤ length bytes },
}

impl<R: Read> Ahead<R> {
    ghost use Rattle.icn_host.specs.Readers.{ahead_left};

    // Reads on where nothing is left ahead. At the end of the input nothing is left then.
    fn fill(&mut self) -> Result<(), Fault>
        ensures same { Keeps (ahead_left R.remaining self.old) (ahead_left R.remaining self.new) }
        ensures end { OnOk result (self.new.at ≡ self.new.end → IsAtEnd (R.remaining self.new.reader)) }
    {
        if self.at == self.end {
            let count = read_some(&mut self.reader, &mut self.bytes)?;
            self.at = 0;
            self.end = count;
        }
        Ok(())
    }

    fn line(&mut self, into: &mut Vec<u8>) -> Result<LineEnd, Fault>
        ensures ok { IfOk result (TakesLine (ahead_left R.remaining self.old)
            (ahead_left R.remaining self.new) into.old.items into.new.items) }
        ensures err { OnErr result (TakesLinePart (ahead_left R.remaining self.old)
            (ahead_left R.remaining self.new) into.old.items into.new.items
            (IsErrOf result Fault.Failed)) }
        ensures kept { Extends into.old.items into.new.items }
        ensures plain { IfOk result (λ _. ExtendsByLine into.old.items into.new.items) }
        ensures none { IfOk result (λ line. line ≡ LineEnd.End → into.new.items ≡ into.old.items) }
    {
        let mut room = LONGEST_LINE;
        loop {
            self.fill()?;
            let rest = &self.bytes[self.at..self.end];
            if rest.is_empty() {
                return if room < LONGEST_LINE {
                    Ok(LineEnd::Last)
                } else {
                    Ok(LineEnd::End)
                };
            }
            let count = line_len(rest);
            if count as u64 > room {
                return Err(Fault::Failed);
            }
            into.extend_from_slice(&rest[..count])?;
            if count < rest.len() {
                self.at += count + 1;
                return Ok(LineEnd::Whole);
            }
            self.at += count;
            room -= count as u64;
        }
    }

    fn take(&mut self, n: u64, into: &mut Vec<u8>) -> Result<u64, Fault>
        ensures ok { IfOk result (TakesFirst (ahead_left R.remaining self.old)
            (ahead_left R.remaining self.new) into.old.items into.new.items n) }
        ensures err { OnErr result (TakesFirstPart (ahead_left R.remaining self.old)
            (ahead_left R.remaining self.new) into.old.items into.new.items n) }
        ensures kept { Extends into.old.items into.new.items }
        ensures counted { IfOk result (λ count. vec_len into.new ≡ vec_len into.old + count) }
        ensures within { vec_len into.new ≤ vec_len into.old + n }
    {
        let mut room = n;
        while room > 0 {
            self.fill()?;
            let count = take_first(&self.bytes[self.at..self.end], room, into)?;
            if count == 0 {
                return Ok(n - room);
            }
            self.at += count;
            room -= count as u64;
        }
        Ok(n - room)
    }
}

/// A reader as a source, for a standard input. It reads ahead, up to 4096 bytes at a time. Where the reader tells what it
/// has left, the source tells what it read ahead and that.
///
/// Its count of faults rises at each error of the reader but want of memory. An interruption after 1000 others in a
/// row is such an error, and so is a line of more than 1099511627776 bytes. After an error of `line` its newline is
/// not taken. Its count of wants rises where the buffer or the reader wants memory, and its count of calls at each call.
#[derive(Drop)]
pub struct StdSource<R> {
    ahead: Ahead<R>,
    faults: u64,
    wants: u64,
    calls: u64,
}

impl<R: Read> StdSource<R> {
    ghost use Rattle.icn_host.specs.Readers.{source_left};

    /// The source over this reader. Nothing is read yet.
    pub fn new(reader: R) -> Self
        ensures left { Keeps (R.remaining reader) (source_left R.remaining result) }
        ensures faults { (⟦<StdSource<R> as Source>⟧.counts result).faults ≡ 0 }
        ensures wants { (⟦<StdSource<R> as Source>⟧.counts result).wants ≡ 0 }
        ensures calls { (⟦<StdSource<R> as Source>⟧.counts result).calls ≡ 0 }
    {
        StdSource {
            ahead: Ahead {
                reader,
                bytes: [0; 4096],
                at: 0,
                end: 0,
            },
            faults: 0,
            wants: 0,
            calls: 0,
        }
    }

    // Counts a call, and what it came to.
    fn count_answer<T>(&mut self, answer: Result<T, Fault>) -> Result<T, Fault>
        ensures same { result ≡ answer }
        ensures kept { self.new.ahead ≡ self.old.ahead }
        ensures cause { CountsOnce (⟦<StdSource<R> as Source>⟧.counts self.old).faults
            (⟦<StdSource<R> as Source>⟧.counts self.new).faults (IsErrOf answer Fault.Failed) }
        ensures want { CountsOnce (⟦<StdSource<R> as Source>⟧.counts self.old).wants
            (⟦<StdSource<R> as Source>⟧.counts self.new).wants (IsErrOf answer Fault.NoMemory) }
        ensures called { (⟦<StdSource<R> as Source>⟧.counts self.new).calls
            ≡ one_more (⟦<StdSource<R> as Source>⟧.counts self.old).calls }
    {
        self.calls = self.calls.saturating_add(1);
        match &answer {
            Err(Fault::Failed) => self.faults = self.faults.saturating_add(1),
            Err(Fault::NoMemory) => self.wants = self.wants.saturating_add(1),
            Ok(_) => {}
        }
        answer
    }
}

impl<R: Read> Source for StdSource<R> {
    ghost use Rattle.icn_host.specs.Readers.{source_left};

    ghost left = { λ s. source_left R.remaining s };

    ghost counts = { λ s. source_counts s.faults s.wants s.calls };

    fn line(&mut self, into: &mut Vec<u8>) -> Result<LineEnd, Fault> {
        let answer = self.ahead.line(into);
        self.count_answer(answer)
    }

    fn take(&mut self, n: u64, into: &mut Vec<u8>) -> Result<u64, Fault> {
        let answer = self.ahead.take(n, into);
        self.count_answer(answer)
    }
}
