// The files of a file system as a store.
ghost use Rattle.std.specs.Prelude.{◌≡◌, ◌+◌, ◌≤◌, IfOk, IfSome, IsNone, OnOk, OnErr, IsErrOf, vec_len};
ghost use Rattle.icn_host.specs.Buffers.{Extends};
ghost use Rattle.icn_host.specs.FileMaps.{NotHeld, Reads, ReadsPart, TellsFile, store_counts, store_state};
ghost use Rattle.icn_host.specs.Readers.{ReadsFirst, ReadsFirstPart};

use crate::fault::{Fault, ReadFailure};
use crate::retry::{RETRIES, fault_of, read_some};
use crate::system::FileSystem;
use crate::traits::Files;
use crate::whole::write_file;
use std::alloc::Global;
use std::io::{ErrorKind, Read};

/// The files of a file system. A name is a path. Where the system tells what it holds, the store tells it.
///
/// The count of absences rises at each read of a file that is not there, also where the system can hold none under the name: it
/// names a folder, a folder on its way is none, it is too long or has a byte 0. The count of faults rises at each other error of
/// the system but want of memory, and at an interruption after 1000 others in a row; its count of wants at want of memory.
///
/// A file is written whole: its content is written under a name of its own in the same folder, `.icn-draft-0` or with a greater
/// number, which then takes the name's place. So a reader sees the old content or the new one, and after a failure the old one
/// is there and no draft. A file keeps its permissions. In place is written what is no file of its own (a link, a device, a
/// pipe), and where the folder takes no new file or name; then a failure may leave a part.
#[derive(Drop)]
pub struct DiskFiles<S> {
    alloc: Global,
    system: S,
    faults: u64,
    wants: u64,
    absences: u64,
}

impl<S: FileSystem> DiskFiles<S> {
    /// The files of this system. None is opened yet.
    pub fn new(alloc: Global, system: S) -> Self
        ensures held { (⟦<DiskFiles<S> as Files>⟧.state result).held ≡ S.held system }
        ensures faults { (⟦<DiskFiles<S> as Files>⟧.state result).counts.faults ≡ 0 }
        ensures wants { (⟦<DiskFiles<S> as Files>⟧.state result).counts.wants ≡ 0 }
        ensures absences { (⟦<DiskFiles<S> as Files>⟧.state result).counts.absences ≡ 0 }
    {
        DiskFiles {
            alloc,
            system,
            faults: 0,
            wants: 0,
            absences: 0,
        }
    }
}

// Appends the first `most + 1` bytes that are left, or all of them.
fn read_first<R: Read>(reader: &mut R, most: u64, into: &mut Vec<u8>) -> Result<(), Fault>
    ensures ok { OnOk result
        (ReadsFirst (R.remaining reader.old) (most + 1) into.old.items into.new.items) }
    ensures err { OnErr result
        (ReadsFirstPart (R.remaining reader.old) (most + 1) into.old.items into.new.items) }
    ensures kept { Extends into.old.items into.new.items }
    ensures within { vec_len into.new ≤ vec_len into.old + (most + 1) }
{
    let mut buffer = [0; 4096];
    let mut room = u128::from(most) + 1;
    while room > 0 {
        let n = read_some(reader, &mut buffer)?;
        if n == 0 {
            return Ok(());
        }
        let count = room.min(n as u128);
        into.extend_from_slice(&buffer[..count as usize])?;
        room -= count;
    }
    Ok(())
}

fn read_file<S: FileSystem>(
    system: &mut S,
    name: &str,
    most: u64,
    into: &mut Vec<u8>,
) -> Result<(), ReadFailure>
    ensures ok { OnOk result
        (Reads (S.held system.old) name.now (most + 1) into.old.items into.new.items) }
    ensures err { OnErr result
        (ReadsPart (S.held system.old) name.now (most + 1) into.old.items into.new.items) }
    ensures kept { Extends into.old.items into.new.items }
    ensures within { vec_len into.new ≤ vec_len into.old + (most + 1) }
    ensures absent { IsErrOf result ReadFailure.NotThere → NotHeld (S.held system.old) name.now }
    ensures nothing { IsErrOf result ReadFailure.NotThere → into.new.items ≡ into.old.items }
    ensures same { S.held system.new ≡ S.held system.old }
{
    match open(system, name)? {
        Some(mut reader) => Ok(read_first(&mut reader, most, into)?),
        None => Err(ReadFailure::NotThere),
    }
}

// Opens a file to read it. `None` where no file has the name.
fn open<S: FileSystem>(system: &mut S, name: &str) -> Result<Option<S::Reader>, Fault>
    ensures told { IfOk result (λ found. IfSome found
        (λ reader. TellsFile (S.held system.old) name.now (S.Reader.remaining reader))) }
    ensures absent { IfOk result (λ found. IsNone found → NotHeld (S.held system.old) name.now) }
    ensures same { S.held system.new ≡ S.held system.old }
{
    for _ in 0..=RETRIES {
        match system.open(name) {
            Ok(found) => return Ok(found),
            Err(e) if e.kind() == ErrorKind::Interrupted => {}
            Err(e) => return Err(fault_of(&e)),
        }
    }
    Err(Fault::Failed)
}

impl<S: FileSystem> Files for DiskFiles<S> {
    ghost state = { λ s. store_state (S.held s.system) (store_counts s.faults s.wants s.absences) };

    fn read(&mut self, name: &str, most: u64, into: &mut Vec<u8>) -> Result<(), ReadFailure> {
        let result = read_file(&mut self.system, name, most, into);
        match result {
            Err(ReadFailure::NotThere) => self.absences = self.absences.saturating_add(1),
            Err(ReadFailure::Failed) => self.faults = self.faults.saturating_add(1),
            Err(ReadFailure::NoMemory) => self.wants = self.wants.saturating_add(1),
            Ok(()) => {}
        }
        result
    }

    fn write(&mut self, name: &str, bytes: &[u8]) -> Result<(), Fault> {
        let result = write_file(self.alloc, &mut self.system, name, bytes);
        match result {
            Err(Fault::Failed) => self.faults = self.faults.saturating_add(1),
            Err(Fault::NoMemory) => self.wants = self.wants.saturating_add(1),
            Ok(()) => {}
        }
        result
    }
}
