// What a file holds as it is opened.
ghost use Rattle.std.specs.Prelude.{◌≡◌, ◌≢◌, ℕ, List, Option, None, Some, IfErr, length, nat_le, if◌then◌else◌};
ghost use Rattle.std.specs.Option.{option_map};
ghost use Rattle.icn_host.specs.Sources.{SourceCounts};
ghost use Rattle.icn_profile.specs.Numbers.{most_bytes_of_opened};
ghost use Rattle.icn_defs.specs.OpenFiles.{is_read_by};
ghost use Rattle.icn_value.specs.declared.mode.FileMode.TheVariants.{ToWrite};
ghost use Rattle.icn_streams.specs.Handed.{call_streams};
ghost use Rattle.icn_streams.specs.Settling.{IsSettled};
ghost use Rattle.icn_filefn.specs.OpenParts.{FindsOfSome, LooksUpBy};

use icn_host::{Files, ReadFailure, Sink};
use icn_profile::MOST_BYTES_OF_OPENED;
use icn_streams::settle;
use icn_value::FileMode;
use icn_vars::Halt;
use std::alloc::Global;

/// What a file of this name holds as it is opened; `None` where it is not opened: where there is nothing to be read, or too much to
/// be read or added to. Both outputs are settled before the store is asked. A file that is written anew is not looked for.
///
/// # Errors
///
/// `FileFault` where the store failed in this call, `WriteFault` where an output did, `NoMemory` where memory ran out.
pub fn first_content<F: Files, O: Sink, E: Sink>(
    alloc: Global,
    name: &str,
    mode: FileMode,
    files: &mut F,
    out: &mut O,
    err: &mut E,
) -> Result<Option<Vec<u8>>, Halt>
    ensures found { FindsOfSome mode name.now (F.state files.old).held result }
    ensures leaves { (left : Option (List ℕ)) (counts : SourceCounts)
        → LooksUpBy (call_streams (F.state files.old) left counts (O.state out.old) (E.state err.old))
        (call_streams (F.state files.new) left counts (O.state out.new) (E.state err.new)) result }
    ensures asked { IfErr result (λ halt. mode ≢ ToWrite) }
    ensures settled { mode ≢ ToWrite → IsSettled result (O.pending out.new) (E.pending err.new) }
{
    let mut content = Vec::new(alloc);
    if mode == FileMode::ToWrite {
        return Ok(Some(content));
    }
    settle(out, err)?;
    match files.read(name, MOST_BYTES_OF_OPENED, &mut content) {
        Ok(()) => Ok(unless_long(content)),
        Err(ReadFailure::NotThere) => Ok(where_absent(mode, content)),
        Err(ReadFailure::Failed) => Err(Halt::FileFault),
        Err(ReadFailure::NoMemory) => Err(Halt::NoMemory),
    }
}

// What was read, unless it is too long.
fn unless_long(content: Vec<u8>) -> Option<Vec<u8>>
    ensures { option_map (λ given. given.items) result
        ≡ (if nat_le (length content.items) most_bytes_of_opened
        then Some content.items else None) }
{
    if content.len() as u64 > MOST_BYTES_OF_OPENED {
        return None;
    }
    Some(content)
}

// What a file that is not there is opened with: nothing, where it is added to.
fn where_absent(mode: FileMode, content: Vec<u8>) -> Option<Vec<u8>>
    ensures { option_map (λ given. given.items) result
        ≡ (if is_read_by mode then None else Some content.items) }
{
    if mode == FileMode::ToRead {
        return None;
    }
    Some(content)
}
