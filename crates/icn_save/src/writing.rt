// Writing a save.
ghost use Rattle.std.specs.Prelude.{◌≡◌, ◌∷◌, ◌++◌, IfOk, OnOk, map, string_bytes};
ghost use Rattle.std.specs.Int.{to_le_bytes, w32, w64};
ghost use Rattle.icn_value.specs.Limited.{limits_of};
ghost use Rattle.icn_save.specs.Saves.{call_of, calls_of};
ghost use Rattle.icn_save.specs.SaveViews.{run_saved};
ghost use Rattle.icn_save.specs.Spelling.{call, flag, limit_numbers, outside, save_bytes, string, table};

use crate::call::{CallAnswer, SavedCall};
use crate::save::Save;
use icn_value::Limits;
use std::alloc::{AllocError, Global};

// The head of a save: `Icn9sav` and 1.
pub const SAVE_HEAD: [u8; 8] = *b"Icn9sav\x01";

// A number of 64 bits.
fn put_number(out: &mut Vec<u8>, number: u64) -> Result<(), AllocError>
    ensures { OnOk result (out.new.items ≡ out.old.items ++ to_le_bytes w64 number) }
{
    out.extend_from_slice(&number.to_le_bytes())
}

// A count or a length of 32 bits.
fn put_count(out: &mut Vec<u8>, count: usize) -> Result<(), AllocError>
    ensures { OnOk result (out.new.items ≡ out.old.items ++ to_le_bytes w32 count) }
{
    out.extend_from_slice(&count.to_le_bytes()[..4])
}

// Bytes behind their length of 32 bits.
fn put_string(out: &mut Vec<u8>, bytes: &[u8]) -> Result<(), AllocError>
    ensures { OnOk result (out.new.items ≡ out.old.items ++ string w32 bytes.now) }
{
    put_count(out, bytes.len())?;
    out.extend_from_slice(bytes)
}

// The same, behind a length of 64 bits.
fn put_long_string(out: &mut Vec<u8>, bytes: &[u8]) -> Result<(), AllocError>
    ensures { OnOk result (out.new.items ≡ out.old.items ++ string w64 bytes.now) }
{
    put_number(out, bytes.len() as u64)?;
    out.extend_from_slice(bytes)
}

fn put_limits(out: &mut Vec<u8>, limits: Limits) -> Result<(), AllocError>
    ensures { OnOk result (out.new.items ≡ out.old.items ++ limit_numbers (limits_of limits)) }
{
    put_number(out, limits.turns)?;
    put_number(out, limits.strings)?;
    put_number(out, limits.cells)?;
    put_number(out, limits.levels)
}

fn put_words(out: &mut Vec<u8>, words: &[String]) -> Result<(), AllocError>
    ensures { OnOk result
        (out.new.items ≡ out.old.items ++ table (string w32) (map string_bytes words.now)) }
{
    put_count(out, words.len())?;
    for word in words {
        put_string(out, word.as_bytes())?;
    }
    Ok(())
}

// The kind of a call, and its name.
fn put_named(out: &mut Vec<u8>, kind: u8, name: &str) -> Result<(), AllocError>
    ensures { OnOk result (out.new.items ≡ out.old.items ++ kind ∷ string w32 name.now) }
{
    out.push(kind)?;
    put_string(out, name.as_bytes())
}

fn put_call(out: &mut Vec<u8>, saved: &SavedCall) -> Result<(), AllocError>
    ensures { OnOk result (out.new.items ≡ out.old.items ++ call (call_of saved.now)) }
{
    match &saved.answer {
        CallAnswer::Found(bytes) => {
            put_named(out, 0, &saved.name)?;
            put_string(out, bytes.as_slice())
        }
        CallAnswer::Absent => put_named(out, 1, &saved.name),
        CallAnswer::Written(bytes) => {
            put_named(out, 2, &saved.name)?;
            put_string(out, bytes.as_slice())
        }
    }
}

fn put_calls(out: &mut Vec<u8>, calls: &[SavedCall]) -> Result<(), AllocError>
    ensures { OnOk result (out.new.items ≡ out.old.items ++ table call (calls_of calls.now)) }
{
    put_count(out, calls.len())?;
    for saved in calls {
        put_call(out, saved)?;
    }
    Ok(())
}

// The byte of a flag.
fn flag_byte(is_set: bool) -> u8
    ensures { result ≡ flag is_set }
{
    if is_set { 1 } else { 0 }
}

// What the run took and put.
fn put_outside(out: &mut Vec<u8>, save: &Save) -> Result<(), AllocError>
    ensures { OnOk result (out.new.items ≡ out.old.items ++ outside (run_saved save.now)) }
{
    put_long_string(out, save.input.as_slice())?;
    out.push(flag_byte(save.ended))?;
    put_number(out, save.output)?;
    put_number(out, save.errors)?;
    put_calls(out, &save.calls)
}

/// The bytes of a save: `read_save` reads them as the same one. An error is want of memory.
#[tactic(auto, unfolding(crate::specs::Spelling::save_bytes))]
pub fn write_save(alloc: Global, save: &Save) -> Result<Vec<u8>, AllocError>
    ensures spelled { IfOk result (λ bytes. bytes.items ≡ save_bytes (run_saved save.now)) }
{
    let mut out = Vec::from_slice(alloc, &SAVE_HEAD)?;
    put_limits(&mut out, save.limits)?;
    put_words(&mut out, &save.words)?;
    put_string(&mut out, save.image.as_slice())?;
    put_outside(&mut out, save)?;
    Ok(out)
}
