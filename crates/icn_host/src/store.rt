// A map of texts to bytes as a store of files.
ghost use Rattle.std.specs.Prelude.{◌≡◌, ◌+◌, take, Some, OnOk, OnErr, IsErrOf, ◌≢◌};
ghost use Rattle.icn_host.specs.FileMaps.{file_map, Reads, NotHeld, SetsFile, SetsPart};

use crate::fault::{Fault, ReadFailure};
use std::alloc::Global;
use std::collections::BTreeMap;

/// Files over memory, by their names.
pub type StoredFiles = BTreeMap<String, Vec<u8>>;

/// Appends the first `most + 1` bytes of a file, or all of it. The error is `NotThere` where there is none of this name, or
/// `NoMemory`. Nothing is appended then.
pub fn look(
    files: &StoredFiles,
    name: &str,
    most: u64,
    into: &mut Vec<u8>,
) -> Result<(), ReadFailure>
    ensures ok { OnOk result
        (Reads (Some (file_map files.now)) name.now (most + 1) into.old.items into.new.items) }
    ensures err { OnErr result (into.new.items ≡ into.old.items) }
    ensures absent { IsErrOf result ReadFailure.NotThere → NotHeld (Some (file_map files.now)) name.now }
    ensures failed { result ≢ Err ReadFailure.Failed }
{
    let bytes = files.get(name).ok_or(ReadFailure::NotThere)?;
    into.extend_from_slice(first(bytes, most))?;
    Ok(())
}

/// Sets the content of a file. The error is `NoMemory`, and all files are as they were then.
pub fn set(alloc: Global, files: &mut StoredFiles, name: &str, bytes: &[u8]) -> Result<(), Fault>
    ensures ok { OnOk result
        (SetsFile (Some (file_map files.old)) (Some (file_map files.new)) name.now bytes.now) }
    ensures err { OnErr result
        (SetsPart (Some (file_map files.old)) (Some (file_map files.new)) name.now bytes.now) }
    ensures same { OnErr result (file_map files.new ≡ file_map files.old) }
    ensures failed { result ≢ Err Fault.Failed }
{
    let key = String::from_str(alloc, name)?;
    let content = Vec::from_slice(alloc, bytes)?;
    files.insert(key, content)?;
    Ok(())
}

// The first `most + 1` bytes, or all of them.
fn first(bytes: &[u8], most: u64) -> &[u8]
    ensures { result.now ≡ take (most + 1) bytes.now }
{
    match usize::try_from(most) {
        Ok(most) if most < bytes.len() => &bytes[..most + 1],
        _ => bytes,
    }
}
