// Objects over memory that fail at the calls of a list.
ghost use Rattle.std.specs.Prelude.{◌≡◌, ◌+◌, ◌≤◌, ◌↔◌, drop, length, Some, OnOk, OnErr, IfOk, IsErrOf, vec_len};
ghost use Rattle.icn_host.specs.Buffers.{Extends};
ghost use Rattle.icn_host.specs.Counts.{CountsOnce, one_more};
ghost use Rattle.icn_host.specs.FileMaps.{file_map, Reads, ReadsPart, NotHeld, SetsFile, SetsPart, store_counts, store_state};
ghost use Rattle.icn_host.specs.Sinks.{Gains, GainsPart, sink_state};
ghost use Rattle.icn_host.specs.Sources.{ExtendsByLine, source_counts, TakesLine, TakesLinePart, TakesFirst, TakesFirstPart};

use crate::bytes::{next_line, take_first};
use crate::failing::FailingCalls;
use crate::fault::{Fault, LineEnd, ReadFailure};
use crate::store::{StoredFiles, look, set};
use crate::traits::{Files, Sink, Source};
use std::alloc::Global;

/// A sink over memory that fails at the calls whose numbers a list names.
///
/// A call that fails appends nothing, answers `Failed` and raises the count of faults. One that wants memory appends
/// nothing, answers `NoMemory` and raises the count of wants.
#[derive(Drop)]
pub struct MemSink {
    held: Vec<u8>,
    failing: FailingCalls,
    faults: u64,
    wants: u64,
}

impl MemSink {
    ghost use Rattle.icn_host.specs.Plans.{sink_plan, first_plan};

    /// A sink that holds these bytes. `failing` has the numbers, from 0, of the calls that fail.
    pub fn new(start: Vec<u8>, failing: Vec<u64>) -> Self
        ensures held { (⟦<MemSink as Sink>⟧.state result).held ≡ Some start.items }
        ensures faults { (⟦<MemSink as Sink>⟧.state result).faults ≡ 0 }
        ensures wants { (⟦<MemSink as Sink>⟧.state result).wants ≡ 0 }
        ensures plan { sink_plan result ≡ first_plan failing.items }
    {
        MemSink {
            held: start,
            failing: FailingCalls::new(failing),
            faults: 0,
            wants: 0,
        }
    }

    /// The bytes that it holds.
    pub fn content(&self) -> &[u8]
        ensures { (⟦<MemSink as Sink>⟧.state self.now).held ≡ Some result.now }
    {
        &self.held
    }
}

impl Sink for MemSink {
    ghost use Rattle.icn_host.specs.Plans.{sink_plan, later_plan, FailsNext};

    ghost pending = { λ _. 0 };

    ghost state = { λ s. sink_state (Some s.held.items) s.faults s.wants };

    fn put(&mut self, piece: &[u8]) -> Result<(), Fault>
        ensures ok { OnOk result (Gains (⟦<MemSink as Sink>⟧.state self.old).held
            (⟦<MemSink as Sink>⟧.state self.new).held piece.now) }
        ensures err { OnErr result
            ((⟦<MemSink as Sink>⟧.state self.new).held ≡ (⟦<MemSink as Sink>⟧.state self.old).held) }
        ensures cause { CountsOnce (⟦<MemSink as Sink>⟧.state self.old).faults
            (⟦<MemSink as Sink>⟧.state self.new).faults (IsErrOf result Fault.Failed) }
        ensures want { CountsOnce (⟦<MemSink as Sink>⟧.state self.old).wants
            (⟦<MemSink as Sink>⟧.state self.new).wants (IsErrOf result Fault.NoMemory) }
        ensures fails { IsErrOf result Fault.Failed ↔ FailsNext (sink_plan self.old) }
        ensures plan { sink_plan self.new ≡ later_plan (sink_plan self.old) }
    {
        if self.failing.fails_now() {
            self.faults = self.faults.saturating_add(1);
            return Err(Fault::Failed);
        }
        if self.held.extend_from_slice(piece).is_err() {
            self.wants = self.wants.saturating_add(1);
            return Err(Fault::NoMemory);
        }
        Ok(())
    }

    // Nothing is pending, so it never fails.
    fn flush(&mut self) -> Result<(), Fault> {
        Ok(())
    }
}

/// A source over memory that fails at the calls whose numbers a list names.
///
/// A call that fails takes and appends nothing, answers `Failed` and raises the count of faults. One that wants memory answers
/// `NoMemory` and raises the count of wants.
#[derive(Drop)]
pub struct MemSource {
    bytes: Vec<u8>,
    at: usize,
    failing: FailingCalls,
    faults: u64,
    wants: u64,
    calls: u64,
    ghost within: { at ≤ length bytes.items },
}

impl MemSource {
    ghost use Rattle.icn_host.specs.Plans.{source_plan, first_plan};

    /// A source of these bytes. `failing` has the numbers, from 0, of the calls that fail: those of `line` and of
    /// `take` are counted together.
    pub fn new(start: Vec<u8>, failing: Vec<u64>) -> Self
        ensures left { ⟦<MemSource as Source>⟧.left result ≡ Some start.items }
        ensures faults { (⟦<MemSource as Source>⟧.counts result).faults ≡ 0 }
        ensures wants { (⟦<MemSource as Source>⟧.counts result).wants ≡ 0 }
        ensures calls { (⟦<MemSource as Source>⟧.counts result).calls ≡ 0 }
        ensures plan { source_plan result ≡ first_plan failing.items }
    {
        MemSource {
            bytes: start,
            at: 0,
            failing: FailingCalls::new(failing),
            faults: 0,
            wants: 0,
            calls: 0,
        }
    }

    /// The bytes that it has left.
    pub fn content(&self) -> &[u8]
        ensures { ⟦<MemSource as Source>⟧.left self.now ≡ Some result.now }
    {
        &self.bytes[self.at..]
    }
}

impl Source for MemSource {
    ghost use Rattle.icn_host.specs.Plans.{source_plan, later_plan, FailsNext};

    ghost left = { λ s. Some (drop s.at s.bytes.items) };

    ghost counts = { λ s. source_counts s.faults s.wants s.calls };

    fn line(&mut self, into: &mut Vec<u8>) -> Result<LineEnd, Fault>
        ensures ok { IfOk result (TakesLine (⟦<MemSource as Source>⟧.left self.old)
            (⟦<MemSource as Source>⟧.left self.new) into.old.items into.new.items) }
        ensures kept { Extends into.old.items into.new.items }
        ensures plain { IfOk result (λ _. ExtendsByLine into.old.items into.new.items) }
        ensures none { IfOk result (λ line. line ≡ LineEnd.End → into.new.items ≡ into.old.items) }
        ensures same_left { OnErr result
            (⟦<MemSource as Source>⟧.left self.new ≡ ⟦<MemSource as Source>⟧.left self.old) }
        ensures same_into { OnErr result (into.new.items ≡ into.old.items) }
        ensures cause { CountsOnce (⟦<MemSource as Source>⟧.counts self.old).faults
            (⟦<MemSource as Source>⟧.counts self.new).faults (IsErrOf result Fault.Failed) }
        ensures want { CountsOnce (⟦<MemSource as Source>⟧.counts self.old).wants
            (⟦<MemSource as Source>⟧.counts self.new).wants (IsErrOf result Fault.NoMemory) }
        ensures called { (⟦<MemSource as Source>⟧.counts self.new).calls
            ≡ one_more (⟦<MemSource as Source>⟧.counts self.old).calls }
        ensures fails { IsErrOf result Fault.Failed ↔ FailsNext (source_plan self.old) }
        ensures plan { source_plan self.new ≡ later_plan (source_plan self.old) }
    {
        self.calls = self.calls.saturating_add(1);
        if self.failing.fails_now() {
            self.faults = self.faults.saturating_add(1);
            return Err(Fault::Failed);
        }
        let Ok((count, line)) = next_line(&self.bytes[self.at..], into) else {
            self.wants = self.wants.saturating_add(1);
            return Err(Fault::NoMemory);
        };
        self.at += count;
        Ok(line)
    }

    fn take(&mut self, n: u64, into: &mut Vec<u8>) -> Result<u64, Fault>
        ensures ok { IfOk result (TakesFirst (⟦<MemSource as Source>⟧.left self.old)
            (⟦<MemSource as Source>⟧.left self.new) into.old.items into.new.items n) }
        ensures kept { Extends into.old.items into.new.items }
        ensures counted { IfOk result (λ count. vec_len into.new ≡ vec_len into.old + count) }
        ensures within { vec_len into.new ≤ vec_len into.old + n }
        ensures same_left { OnErr result
            (⟦<MemSource as Source>⟧.left self.new ≡ ⟦<MemSource as Source>⟧.left self.old) }
        ensures same_into { OnErr result (into.new.items ≡ into.old.items) }
        ensures cause { CountsOnce (⟦<MemSource as Source>⟧.counts self.old).faults
            (⟦<MemSource as Source>⟧.counts self.new).faults (IsErrOf result Fault.Failed) }
        ensures want { CountsOnce (⟦<MemSource as Source>⟧.counts self.old).wants
            (⟦<MemSource as Source>⟧.counts self.new).wants (IsErrOf result Fault.NoMemory) }
        ensures called { (⟦<MemSource as Source>⟧.counts self.new).calls
            ≡ one_more (⟦<MemSource as Source>⟧.counts self.old).calls }
        ensures fails { IsErrOf result Fault.Failed ↔ FailsNext (source_plan self.old) }
        ensures plan { source_plan self.new ≡ later_plan (source_plan self.old) }
    {
        self.calls = self.calls.saturating_add(1);
        if self.failing.fails_now() {
            self.faults = self.faults.saturating_add(1);
            return Err(Fault::Failed);
        }
        let Ok(count) = take_first(&self.bytes[self.at..], n, into) else {
            self.wants = self.wants.saturating_add(1);
            return Err(Fault::NoMemory);
        };
        self.at += count;
        Ok(count as u64)
    }
}

/// Files over memory that fail at the calls whose numbers a list names.
///
/// A call that fails changes and appends nothing, answers `Failed` and raises the count of faults. One that wants memory raises
/// that of wants.
#[derive(Drop)]
pub struct MemFiles {
    alloc: Global,
    files: StoredFiles,
    failing: FailingCalls,
    faults: u64,
    wants: u64,
    absences: u64,
}

impl MemFiles {
    ghost use Rattle.icn_host.specs.Plans.{files_plan, first_plan};

    /// A store of these files. `failing` has the numbers, from 0, of the calls that fail: those of `read` and of
    /// `write` are counted together.
    pub fn new(alloc: Global, start: StoredFiles, failing: Vec<u64>) -> Self
        ensures held { (⟦<MemFiles as Files>⟧.state result).held ≡ Some (file_map start) }
        ensures faults { (⟦<MemFiles as Files>⟧.state result).counts.faults ≡ 0 }
        ensures wants { (⟦<MemFiles as Files>⟧.state result).counts.wants ≡ 0 }
        ensures absences { (⟦<MemFiles as Files>⟧.state result).counts.absences ≡ 0 }
        ensures plan { files_plan result ≡ first_plan failing.items }
    {
        MemFiles {
            alloc,
            files: start,
            failing: FailingCalls::new(failing),
            faults: 0,
            wants: 0,
            absences: 0,
        }
    }

    /// The files that it holds, by their names.
    pub fn content(&self) -> &StoredFiles
        ensures { (⟦<MemFiles as Files>⟧.state self.now).held ≡ Some (file_map result.now) }
    {
        &self.files
    }
}

impl Files for MemFiles {
    ghost use Rattle.icn_host.specs.Plans.{files_plan, later_plan, FailsNext};

    ghost state = { λ s. store_state (Some (file_map s.files)) (store_counts s.faults s.wants s.absences) };

    fn read(&mut self, name: &str, most: u64, into: &mut Vec<u8>) -> Result<(), ReadFailure>
        ensures ok { OnOk result
            (Reads (⟦<MemFiles as Files>⟧.state self.old).held name.now (most + 1) into.old.items
            into.new.items) }
        ensures within { vec_len into.new ≤ vec_len into.old + (most + 1) }
        ensures kept { Extends into.old.items into.new.items }
        ensures err { OnErr result (into.new.items ≡ into.old.items) }
        ensures absent { IsErrOf result ReadFailure.NotThere
            → NotHeld (⟦<MemFiles as Files>⟧.state self.old).held name.now }
        ensures same { (⟦<MemFiles as Files>⟧.state self.new).held
            ≡ (⟦<MemFiles as Files>⟧.state self.old).held }
        ensures cause { CountsOnce (⟦<MemFiles as Files>⟧.state self.old).counts.faults
            (⟦<MemFiles as Files>⟧.state self.new).counts.faults (IsErrOf result ReadFailure.Failed) }
        ensures want { CountsOnce (⟦<MemFiles as Files>⟧.state self.old).counts.wants
            (⟦<MemFiles as Files>⟧.state self.new).counts.wants (IsErrOf result ReadFailure.NoMemory) }
        ensures absence { CountsOnce (⟦<MemFiles as Files>⟧.state self.old).counts.absences
            (⟦<MemFiles as Files>⟧.state self.new).counts.absences (IsErrOf result ReadFailure.NotThere) }
        ensures fails { IsErrOf result ReadFailure.Failed ↔ FailsNext (files_plan self.old) }
        ensures plan { files_plan self.new ≡ later_plan (files_plan self.old) }
    {
        if self.failing.fails_now() {
            self.faults = self.faults.saturating_add(1);
            return Err(ReadFailure::Failed);
        }
        let result = look(&self.files, name, most, into);
        match result {
            Err(ReadFailure::NotThere) => self.absences = self.absences.saturating_add(1),
            Err(ReadFailure::NoMemory) => self.wants = self.wants.saturating_add(1),
            _ => {}
        }
        result
    }

    fn write(&mut self, name: &str, bytes: &[u8]) -> Result<(), Fault>
        ensures ok { OnOk result (SetsFile (⟦<MemFiles as Files>⟧.state self.old).held
            (⟦<MemFiles as Files>⟧.state self.new).held name.now bytes.now) }
        ensures err { OnErr result (SetsPart (⟦<MemFiles as Files>⟧.state self.old).held
            (⟦<MemFiles as Files>⟧.state self.new).held name.now bytes.now) }
        ensures cause { CountsOnce (⟦<MemFiles as Files>⟧.state self.old).counts.faults
            (⟦<MemFiles as Files>⟧.state self.new).counts.faults (IsErrOf result Fault.Failed) }
        ensures want { CountsOnce (⟦<MemFiles as Files>⟧.state self.old).counts.wants
            (⟦<MemFiles as Files>⟧.state self.new).counts.wants (IsErrOf result Fault.NoMemory) }
        ensures absences { (⟦<MemFiles as Files>⟧.state self.new).counts.absences
            ≡ (⟦<MemFiles as Files>⟧.state self.old).counts.absences }
        ensures fails { IsErrOf result Fault.Failed ↔ FailsNext (files_plan self.old) }
        ensures same { OnErr result
            ((⟦<MemFiles as Files>⟧.state self.new).held ≡ (⟦<MemFiles as Files>⟧.state self.old).held) }
        ensures plan { files_plan self.new ≡ later_plan (files_plan self.old) }
    {
        if self.failing.fails_now() {
            self.faults = self.faults.saturating_add(1);
            return Err(Fault::Failed);
        }
        let result = set(self.alloc, &mut self.files, name, bytes);
        if result == Err(Fault::NoMemory) {
            self.wants = self.wants.saturating_add(1);
        }
        result
    }
}
