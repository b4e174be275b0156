// Commands that are run many times: with each call that fails in turn, and with each byte.
use crate::icont::command::run;
use crate::icont::failing::{FailingCall, HandedObject};
use crate::icont::notation::full_text;
use crate::icont::outcome::{CommandSetting, name_of, shown_outcome};
use icn_host::StoredFiles;
use std::alloc::{AllocError, Global};
use std::fmt::Write;

// As many calls of an object may fail.
const MOST: u64 = 20;

/// What comes of a command where each call of each object fails in turn. The error is want of memory.
pub fn shown_turns(
    alloc: Global,
    command: &str,
    setting: CommandSetting,
) -> Result<String, AllocError> {
    let mut shown = String::new(alloc);
    for (object, name) in [
        (HandedObject::Files, "files"),
        (HandedObject::Input, "input"),
        (HandedObject::Output, "output"),
        (HandedObject::Errors, "errors"),
    ] {
        push_turns(alloc, &mut shown, command, setting, object, name)?;
    }
    Ok(shown)
}

// Runs in which each call of this object fails in turn, up to the first run that no fault ends.
fn push_turns(
    alloc: Global,
    shown: &mut String,
    command: &str,
    setting: CommandSetting,
    object: HandedObject,
    name: &str,
) -> Result<(), AllocError> {
    for number in 0..MOST {
        let failing = [FailingCall { object, number }];
        let outcome = run(alloc, command, setting.files, setting.input, &failing)?;
        let line = shown_outcome(alloc, &outcome, setting)?;
        shown.push_str(&format!(in alloc; "\n  {name} {number} => {line}")?)?;
        if !outcome.answer.is_fault() {
            return Ok(());
        }
    }
    Ok(())
}

/// The answer of `icont f.icn -x` where `f.icn` is this text with each byte in place of its lozenge, by the byte, where the answer
/// changes. The error is want of memory.
pub fn shown_bytes(alloc: Global, text: &str, files: &StoredFiles) -> Result<String, AllocError> {
    let (front, rest) = text.split_once("◊").unwrap_or((text, ""));
    let behind = full_text(alloc, rest)?;
    let mut held = files.clone()?;
    let mut shown = String::new(alloc);
    let mut last = String::new(alloc);
    for byte in 0..=u8::MAX {
        let mut source = full_text(alloc, front)?;
        source.push(byte)?;
        source.extend_from_slice(&behind)?;
        held.insert(String::from_str(alloc, "f.icn")?, source)?;
        let outcome = run(alloc, "icont f.icn -x", &held, &[], &[])?;
        let now = name_of(&outcome.answer);
        if last.as_str() != now {
            write!(&mut shown, " {byte}:{now}")?;
            last = String::from_str(alloc, now)?;
        }
    }
    Ok(shown)
}
