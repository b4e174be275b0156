// Objects over memory that never fail.
ghost use Rattle.std.specs.Prelude.{◌≡◌, ◌≤◌, drop, length, Some};
ghost use Rattle.icn_host.specs.FileMaps.{file_map, store_counts, store_state};
ghost use Rattle.icn_host.specs.Sinks.{sink_state};
ghost use Rattle.icn_host.specs.Sources.{source_counts};

use crate::bytes::{next_line, take_first};
use crate::fault::{Fault, LineEnd, ReadFailure};
use crate::store::{StoredFiles, look, set};
use crate::traits::{Files, Sink, Source};
use std::alloc::Global;

/// A sink over memory that never fails: it gives up only for want of memory, and then its count of wants rises.
#[derive(Drop)]
pub struct SureSink {
    held: Vec<u8>,
    wants: u64,
}

impl SureSink {
    /// A sink that holds these bytes.
    pub fn new(start: Vec<u8>) -> Self
        ensures held { (⟦<SureSink as Sink>⟧.state result).held ≡ Some start.items }
        ensures wants { (⟦<SureSink as Sink>⟧.state result).wants ≡ 0 }
    {
        SureSink {
            held: start,
            wants: 0,
        }
    }

    /// The bytes that it holds.
    pub fn content(&self) -> &[u8]
        ensures { (⟦<SureSink as Sink>⟧.state self.now).held ≡ Some result.now }
    {
        &self.held
    }
}

impl Sink for SureSink {
    ghost pending = { λ _. 0 };

    ghost state = { λ s. sink_state (Some s.held.items) 0 s.wants };

    fn put(&mut self, piece: &[u8]) -> Result<(), Fault> {
        if self.held.extend_from_slice(piece).is_err() {
            self.wants = self.wants.saturating_add(1);
            return Err(Fault::NoMemory);
        }
        Ok(())
    }

    fn flush(&mut self) -> Result<(), Fault> {
        Ok(())
    }
}

/// Files over memory that never fail: they give up only for want of memory, or where a file is not there.
#[derive(Drop)]
pub struct SureFiles {
    alloc: Global,
    files: StoredFiles,
    wants: u64,
    absences: u64,
}

impl SureFiles {
    /// A store of these files.
    pub fn new(alloc: Global, start: StoredFiles) -> Self
        ensures held { (⟦<SureFiles as Files>⟧.state result).held ≡ Some (file_map start) }
        ensures absences { (⟦<SureFiles as Files>⟧.state result).counts.absences ≡ 0 }
    {
        SureFiles {
            alloc,
            files: start,
            wants: 0,
            absences: 0,
        }
    }

    /// The files that it holds, by their names.
    pub fn content(&self) -> &StoredFiles
        ensures { (⟦<SureFiles as Files>⟧.state self.now).held ≡ Some (file_map result.now) }
    {
        &self.files
    }
}

impl Files for SureFiles {
    ghost state = { λ s. store_state (Some (file_map s.files)) (store_counts 0 s.wants s.absences) };

    fn read(&mut self, name: &str, most: u64, into: &mut Vec<u8>) -> Result<(), ReadFailure> {
        let result = look(&self.files, name, most, into);
        match result {
            Err(ReadFailure::NotThere) => self.absences = self.absences.saturating_add(1),
            Err(ReadFailure::NoMemory) => self.wants = self.wants.saturating_add(1),
            _ => {}
        }
        result
    }

    fn write(&mut self, name: &str, bytes: &[u8]) -> Result<(), Fault> {
        let result = set(self.alloc, &mut self.files, name, bytes);
        if result == Err(Fault::NoMemory) {
            self.wants = self.wants.saturating_add(1);
        }
        result
    }
}

/// A source over memory that never fails: it gives up only for want of memory.
#[derive(Drop)]
pub struct SureSource {
    bytes: Vec<u8>,
    at: usize,
    wants: u64,
    calls: u64,
    ghost within: { at ≤ length bytes.items },
}

impl SureSource {
    /// A source of these bytes.
    pub fn new(start: Vec<u8>) -> Self
        ensures { ⟦<SureSource as Source>⟧.left result ≡ Some start.items }
    {
        SureSource {
            bytes: start,
            at: 0,
            wants: 0,
            calls: 0,
        }
    }

    /// The bytes that it has left.
    pub fn content(&self) -> &[u8]
        ensures { ⟦<SureSource as Source>⟧.left self.now ≡ Some result.now }
    {
        &self.bytes[self.at..]
    }
}

impl Source for SureSource {
    ghost left = { λ s. Some (drop s.at s.bytes.items) };

    ghost counts = { λ s. source_counts 0 s.wants s.calls };

    fn line(&mut self, into: &mut Vec<u8>) -> Result<LineEnd, Fault> {
        self.calls = self.calls.saturating_add(1);
        let Ok((count, line)) = next_line(&self.bytes[self.at..], into) else {
            self.wants = self.wants.saturating_add(1);
            return Err(Fault::NoMemory);
        };
        self.at += count;
        Ok(line)
    }

    fn take(&mut self, n: u64, into: &mut Vec<u8>) -> Result<u64, Fault> {
        self.calls = self.calls.saturating_add(1);
        let Ok(count) = take_first(&self.bytes[self.at..], n, into) else {
            self.wants = self.wants.saturating_add(1);
            return Err(Fault::NoMemory);
        };
        self.at += count;
        Ok(count as u64)
    }
}
