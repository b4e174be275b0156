// Files written whole.
ghost use Rattle.std.specs.Prelude.{◌≡◌, [], ◌≤◌, IfOk, IfSome, OnOk, OnErr, length, take};
ghost use Rattle.icn_host.specs.FileMaps.{GrowsFile, GrowsFilePart, SetsFile, SetsPart};
ghost use Rattle.icn_host.specs.Drafts.{HasDraft, HasMoved, HasWritten};

use crate::fault::Fault;
use crate::retry::{RETRIES, fault_of};
use crate::system::{FileSystem, Standing};
use std::alloc::{AllocError, Global};
use std::fs::Permissions;
use std::io::ErrorKind;

// So many names of drafts are tried.
const DRAFTS: u32 = 1000;

// A file that is to take the place of another.
struct Draft<W> {
    name: String,
    file: W,
}

// How a file was written.
#[derive(Clone, Copy, Debug, PartialEq, Eq)]
enum Written {
    // It took the name's place.
    Replaced,
    // The folder takes no new file, or no file that takes the name's place.
    Refused,
}

/// Sets the whole content of a file. After an error the name is absent, holds what it held, or a first part of the bytes;
/// each other name stays.
pub fn write_file<S: FileSystem>(
    alloc: Global,
    system: &mut S,
    name: &str,
    bytes: &[u8],
) -> Result<(), Fault>
    ensures ok { OnOk result (SetsFile (S.held system.old) (S.held system.new) name.now bytes.now) }
    ensures err { OnErr result (SetsPart (S.held system.old) (S.held system.new) name.now bytes.now) }
{
    let written = match look(system, name)? {
        Standing::Nothing => replace(alloc, system, name, None, bytes)?,
        Standing::Plain(permissions) => replace(alloc, system, name, Some(&permissions), bytes)?,
        Standing::Special => Written::Refused,
    };
    match written {
        Written::Replaced => Ok(()),
        Written::Refused => write_in_place(system, name, bytes),
    }
}

// What stands under a name.
fn look<S: FileSystem>(system: &mut S, name: &str) -> Result<Standing, Fault>
    ensures { S.held system.new ≡ S.held system.old }
{
    for _ in 0..=RETRIES {
        match system.look(name) {
            Ok(standing) => return Ok(standing),
            Err(e) if e.kind() == ErrorKind::Interrupted => {}
            Err(e) => return Err(fault_of(&e)),
        }
    }
    Err(Fault::Failed)
}

// Writes the content beside, and has it take the name's place. After a failure, and where it is refused, all is as it was.
fn replace<S: FileSystem>(
    alloc: Global,
    system: &mut S,
    name: &str,
    permissions: Option<&Permissions>,
    bytes: &[u8],
) -> Result<Written, Fault>
    ensures { HasWritten (S.held system.old) (S.held system.new) name.now bytes.now result }
{
    let Some(draft) = make_draft(alloc, system, name, permissions)? else {
        return Ok(Written::Refused);
    };
    let Draft {
        name: draft_name,
        mut file,
    } = draft;
    if let Err(fault) = write_bytes(system, &mut file, bytes) {
        system.remove(&draft_name);
        return Err(fault);
    }
    let written = rename(system, &draft_name, name);
    if written != Ok(Written::Replaced) {
        system.remove(&draft_name);
    }
    written
}

// Makes an empty file beside the name; none where the folder takes no new one.
fn make_draft<S: FileSystem>(
    alloc: Global,
    system: &mut S,
    name: &str,
    permissions: Option<&Permissions>,
) -> Result<Option<Draft<S::Writer>>, Fault>
    ensures ok { IfOk result (HasDraft S.opened (S.held system.old) (S.held system.new)) }
    ensures err { OnErr result (S.held system.new ≡ S.held system.old) }
{
    for number in 0..DRAFTS {
        let draft_name = name_beside(alloc, name, number)?;
        match system.make(&draft_name, permissions) {
            Ok(file) => {
                return Ok(Some(Draft {
                    name: draft_name,
                    file,
                }));
            }
            Err(e) if is_another_tried(e.kind()) => {}
            Err(e) if is_refused(e.kind()) => return Ok(None),
            Err(e) => return Err(fault_of(&e)),
        }
    }
    Err(Fault::Failed)
}

// The name of a draft in the folder of a name.
fn name_beside(alloc: Global, name: &str, number: u32) -> Result<String, AllocError> {
    match name.rsplit_once('/') {
        Some((folder, _)) => format!(in alloc; "{folder}/.icn-draft-{number}"),
        None => format!(in alloc; ".icn-draft-{number}"),
    }
}

// The name is taken, or the call was interrupted.
fn is_another_tried(kind: ErrorKind) -> bool {
    matches!(kind, ErrorKind::AlreadyExists | ErrorKind::Interrupted)
}

// The folder takes no new file or name, and what stands there may be written in place.
fn is_refused(kind: ErrorKind) -> bool {
    matches!(
        kind,
        ErrorKind::PermissionDenied
            | ErrorKind::ReadOnlyFilesystem
            | ErrorKind::InvalidFilename
            | ErrorKind::ResourceBusy
            | ErrorKind::Unsupported
    )
}

// Writes the bytes behind what the file has, or gives up after a part of them.
fn write_bytes<S: FileSystem>(
    system: &mut S,
    file: &mut S::Writer,
    bytes: &[u8],
) -> Result<(), Fault>
    ensures ok { OnOk result
        (GrowsFile (S.held system.old) (S.held system.new) (S.opened file.old) bytes.now) }
    ensures err { OnErr result
        (GrowsFilePart (S.held system.old) (S.held system.new) (S.opened file.old) bytes.now) }
{
    let mut rest = bytes;
    while !rest.is_empty() {
        let n = write_some(system, file, rest)?;
        if n == 0 {
            return Err(Fault::Failed);
        }
        rest = rest.split_at(n).1;
    }
    Ok(())
}

// Writes a part of the piece from its start.
fn write_some<S: FileSystem>(
    system: &mut S,
    file: &mut S::Writer,
    piece: &[u8],
) -> Result<usize, Fault>
    ensures within { IfOk result (λ n. n ≤ length piece.now) }
    ensures opened { S.opened file.new ≡ S.opened file.old }
    ensures grows { IfOk result
        (λ n. GrowsFile (S.held system.old) (S.held system.new) (S.opened file.old) (take n piece.now)) }
    ensures same { OnErr result (S.held system.new ≡ S.held system.old) }
{
    for _ in 0..=RETRIES {
        match system.write(file, piece) {
            Ok(n) => return Ok(n),
            Err(e) if e.kind() == ErrorKind::Interrupted => {}
            Err(e) => return Err(fault_of(&e)),
        }
    }
    Err(Fault::Failed)
}

// Gives the file of a name another name, unless it is refused.
fn rename<S: FileSystem>(system: &mut S, source: &str, target: &str) -> Result<Written, Fault>
    ensures { HasMoved (S.held system.old) (S.held system.new) source.now target.now result }
{
    for _ in 0..=RETRIES {
        match system.rename(source, target) {
            Ok(()) => return Ok(Written::Replaced),
            Err(e) if e.kind() == ErrorKind::Interrupted => {}
            Err(e) if is_refused(e.kind()) => return Ok(Written::Refused),
            Err(e) => return Err(fault_of(&e)),
        }
    }
    Err(Fault::Failed)
}

// Writes the content into what stands under the name.
fn write_in_place<S: FileSystem>(system: &mut S, name: &str, bytes: &[u8]) -> Result<(), Fault>
    ensures ok { OnOk result (SetsFile (S.held system.old) (S.held system.new) name.now bytes.now) }
    ensures err { OnErr result (SetsPart (S.held system.old) (S.held system.new) name.now bytes.now) }
{
    let mut file = clear(system, name)?;
    write_bytes(system, &mut file, bytes)
}

// Makes a file empty, and opens it.
fn clear<S: FileSystem>(system: &mut S, name: &str) -> Result<S::Writer, Fault>
    ensures ok { OnOk result (SetsFile (S.held system.old) (S.held system.new) name.now []) }
    ensures opened { IfSome (S.held system.old) (λ _. IfOk result (λ file. S.opened file ≡ name.now)) }
    ensures err { OnErr result (S.held system.new ≡ S.held system.old) }
{
    for _ in 0..=RETRIES {
        match system.clear(name) {
            Ok(file) => return Ok(file),
            Err(e) if e.kind() == ErrorKind::Interrupted => {}
            Err(e) => return Err(fault_of(&e)),
        }
    }
    Err(Fault::Failed)
}
