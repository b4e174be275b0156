// Reading a save.
ghost use Rattle.std.specs.Prelude.{◌≡◌, ℕ, List, IfOk, IfSome, IsTrue, is_some, map, string_bytes};
ghost use Rattle.std.specs.List.{list_all};
ghost use Rattle.std.specs.Str.{is_utf8};
ghost use Rattle.icn_value.specs.Limited.{limits_of};
ghost use Rattle.icn_save.specs.Readers.{Gives};
ghost use Rattle.icn_save.specs.Reading.{behind_head, fields_fit, has_text_name, judged, save_read};
ghost use Rattle.icn_save.specs.Saves.{are_in_range, call_by, call_of, calls_of};
ghost use Rattle.icn_save.specs.SaveViews.{run_saved};
ghost use Rattle.icn_save.specs.Slices.{bounds_in, call_in, call_in_by, calls_in, fields_in, texts_in};
ghost use Rattle.icn_save.specs.Texts.{TakesOne};

use crate::call::{CallAnswer, SavedCall};
use crate::calls::{AnswerSlice, CallSlices};
use crate::fault::SaveFault;
use crate::fields::{FieldSlices, LimitFields, fields_at};
use crate::save::Save;
use crate::writing::SAVE_HEAD;
use icn_profile::{MOST_CELLS, MOST_LEVELS, MOST_STRINGS};
use icn_tree::{Bytes, Rule};
use icn_value::Limits;
use std::alloc::{AllocError, Global};

// What stands behind the head.
fn behind_head(bytes: &[u8]) -> Result<&[u8], SaveFault>
    ensures { Gives (λ rest. rest.now) result (behind_head bytes.now) }
{
    if bytes.starts_with(&SAVE_HEAD) {
        Ok(&bytes[SAVE_HEAD.len()..])
    } else {
        Err(SaveFault::Broken(Rule::G1))
    }
}

// The limits, where each is in its range.
fn limits_of(fields: LimitFields) -> Option<Limits>
    ensures found { IfSome result (λ limits. limits_of limits ≡ bounds_in fields) }
    ensures range { is_some result ≡ are_in_range (bounds_in fields) }
{
    let in_range = fields.strings <= MOST_STRINGS
        && fields.cells <= MOST_CELLS
        && 1 <= fields.levels
        && fields.levels <= MOST_LEVELS;
    if !in_range {
        return None;
    }
    Some(Limits {
        turns: fields.turns,
        strings: fields.strings,
        cells: fields.cells,
        levels: fields.levels,
    })
}

// A text. The error is G3, where the bytes are none, or want of memory.
fn text(alloc: Global, bytes: &[u8]) -> Result<String, SaveFault>
    ensures { TakesOne (is_utf8 bytes.now) (λ text. string_bytes text ≡ bytes.now) result }
{
    let Ok(text) = str::from_utf8(bytes) else {
        return Err(SaveFault::Broken(Rule::G3));
    };
    Ok(String::from_str(alloc, text)?)
}

// All words as texts. The error is G3, where one is none, or want of memory.
fn texts(alloc: Global, words: &[&[u8]]) -> Result<Vec<String>, SaveFault>
    ensures { TakesOne (list_all is_utf8 (texts_in words.now))
        (λ texts. map string_bytes texts.items ≡ texts_in words.now) result }
{
    let mut texts = Vec::new(alloc);
    for word in words {
        texts.push(text(alloc, word)?)?;
    }
    Ok(texts)
}

// What a call was answered. The error is want of memory.
fn answer(alloc: Global, slice: AnswerSlice<'_>) -> Result<CallAnswer, AllocError>
    ensures { IfOk result (λ answer. (name : List ℕ) → call_by name answer
        ≡ call_in_by name slice.entry) }
{
    match slice {
        AnswerSlice::Found(bytes) => Ok(CallAnswer::Found(Bytes::from_slice(alloc, bytes)?)),
        AnswerSlice::Absent => Ok(CallAnswer::Absent),
        AnswerSlice::Written(bytes) => Ok(CallAnswer::Written(Bytes::from_slice(alloc, bytes)?)),
    }
}

// A call, whose name is to be a text. The error is G3, where it is none, or want of memory.
fn call(alloc: Global, slices: CallSlices<'_>) -> Result<SavedCall, SaveFault>
    ensures { TakesOne (has_text_name (call_in slices.entry))
        (λ call. call_of call ≡ call_in slices.entry) result }
{
    Ok(SavedCall {
        name: text(alloc, slices.name)?,
        answer: answer(alloc, slices.answer)?,
    })
}

// All calls. The error is G3, where a name is no text, or want of memory.
fn calls(alloc: Global, slices: &[CallSlices<'_>]) -> Result<Vec<SavedCall>, SaveFault>
    ensures { TakesOne (list_all has_text_name (calls_in slices.now))
        (λ calls. calls_of calls.items ≡ calls_in slices.now) result }
{
    let mut calls = Vec::new(alloc);
    for slice in slices {
        calls.push(call(alloc, *slice)?)?;
    }
    Ok(calls)
}

// The save that fields spell, where each is what it has to be. The error is G3, or want of memory.
fn judged(alloc: Global, fields: &FieldSlices<'_>) -> Result<Save, SaveFault>
    requires { IsTrue (fields_fit (fields_in fields.now)) }
    ensures { Gives run_saved result (judged (fields_in fields.now)) }
{
    let Some(limits) = limits_of(fields.limits) else {
        return Err(SaveFault::Broken(Rule::G3));
    };
    if fields.flag > 1 {
        return Err(SaveFault::Broken(Rule::G3));
    }
    Ok(Save {
        limits,
        words: texts(alloc, &fields.words)?,
        image: Bytes::from_slice(alloc, fields.image)?,
        input: Bytes::from_slice(alloc, fields.input)?,
        ended: fields.flag == 1,
        output: fields.output,
        errors: fields.errors,
        calls: calls(alloc, &fields.calls)?,
    })
}

/// The run that a save tells. An error is the first rule that the bytes break, in this order (G1: the head is another; G2: the bytes
/// end too early; G3: a kind or a flag is none, a limit is out of its range, or a word or the name of a file is no text; G4: bytes
/// behind the end), or want of memory. A kind that is none ends the reading there.
#[tactic(auto, unfolding(crate::specs::Reading::save_read))]
pub fn read_save(alloc: Global, bytes: &[u8]) -> Result<Save, SaveFault>
    ensures exact { Gives run_saved result (save_read bytes.now) }
{
    let rest = behind_head(bytes)?;
    let (fields, rest) = fields_at(alloc, rest)?;
    let save = judged(alloc, &fields)?;
    if !rest.is_empty() {
        return Err(SaveFault::Broken(Rule::G4));
    }
    Ok(save)
}
