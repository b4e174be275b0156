// The fields of a save, read without judging them.
ghost use Rattle.std.specs.Int.{w32};
ghost use Rattle.icn_save.specs.Readers.{Gives, string_at, table_at, times};
ghost use Rattle.icn_save.specs.Reading.{bounds_at, fields_at};
ghost use Rattle.icn_save.specs.Slices.{bounds_in, fields_in, texts_in};

use crate::calls::{CallSlices, calls_at};
use crate::fault::SaveFault;
use crate::number::{byte_at, count_at, long_string_at, number_at, string_at};
use std::alloc::Global;

// The limits of a save as they stand there, in their ranges or not.
#[derive(Clone, Copy, Debug)]
pub struct LimitFields {
    pub turns: u64,
    pub strings: u64,
    pub cells: u64,
    pub levels: u64,
}

// The fields of a save, in slices of its bytes.
#[derive(Drop)]
pub struct FieldSlices<'b> {
    pub limits: LimitFields,
    pub words: Vec<&'b [u8]>,
    pub image: &'b [u8],
    pub input: &'b [u8],
    pub flag: u8,
    pub output: u64,
    pub errors: u64,
    pub calls: Vec<CallSlices<'b>>,
}

#[tactic(auto, unfolding(crate::specs::Reading::bounds_at))]
fn limits_at(bytes: &[u8]) -> Result<(LimitFields, &[u8]), SaveFault>
    ensures { Gives (λ x. (bounds_in x.0, x.1.now)) result (bounds_at bytes.now) }
{
    let (turns, rest) = number_at(bytes)?;
    let (strings, rest) = number_at(rest)?;
    let (cells, rest) = number_at(rest)?;
    let (levels, rest) = number_at(rest)?;
    let limits = LimitFields {
        turns,
        strings,
        cells,
        levels,
    };
    Ok((limits, rest))
}

fn so_many_words<'b>(
    alloc: Global,
    count: u32,
    bytes: &'b [u8],
) -> Result<(Vec<&'b [u8]>, &'b [u8]), SaveFault>
    ensures { Gives (λ x. (texts_in x.0.items, x.1.now)) result (times (string_at w32) count bytes.now) }
{
    let mut words = Vec::new(alloc);
    let mut rest = bytes;
    for _ in 0..count {
        let (word, after) = string_at(rest)?;
        words.push(word)?;
        rest = after;
    }
    Ok((words, rest))
}

#[tactic(auto, unfolding(crate::specs::Readers::table_at))]
fn words_at(alloc: Global, bytes: &[u8]) -> Result<(Vec<&[u8]>, &[u8]), SaveFault>
    ensures { Gives (λ x. (texts_in x.0.items, x.1.now)) result (table_at (string_at w32) bytes.now) }
{
    let (count, rest) = count_at(bytes)?;
    so_many_words(alloc, count, rest)
}

/// All fields behind the head. The error is G2, G3 where the kind of a call is none, or want of memory.
#[tactic(auto, unfolding(crate::specs::Reading::fields_at))]
pub fn fields_at(alloc: Global, bytes: &[u8]) -> Result<(FieldSlices<'_>, &[u8]), SaveFault>
    ensures { Gives (λ x. (fields_in x.0, x.1.now)) result (fields_at bytes.now) }
{
    let (limits, rest) = limits_at(bytes)?;
    let (words, rest) = words_at(alloc, rest)?;
    let (image, rest) = string_at(rest)?;
    let (input, rest) = long_string_at(rest)?;
    let (flag, rest) = byte_at(rest)?;
    let (output, rest) = number_at(rest)?;
    let (errors, rest) = number_at(rest)?;
    let (calls, rest) = calls_at(alloc, rest)?;
    let fields = FieldSlices {
        limits,
        words,
        image,
        input,
        flag,
        output,
        errors,
        calls,
    };
    Ok((fields, rest))
}
