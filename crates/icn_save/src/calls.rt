// The calls of the store of files in a save.
ghost use Rattle.std.specs.Prelude.{ℕ, List};
ghost use Rattle.icn_save.specs.Readers.{Gives, table_at, times};
ghost use Rattle.icn_save.specs.Reading.{answer_at, call_at};
ghost use Rattle.icn_save.specs.Slices.{call_in, call_in_by, calls_in};

use crate::fault::SaveFault;
use crate::number::{byte_at, count_at, string_at};
use icn_tree::Rule;
use std::alloc::Global;

// What a call of the store of files was answered, in slices of the bytes that spell it.
#[derive(Clone, Copy, Debug)]
pub enum AnswerSlice<'b> {
    Found(&'b [u8]),
    Absent,
    Written(&'b [u8]),
}

// A call of the store of files, in slices of the bytes that spell it.
#[derive(Clone, Copy, Debug)]
pub struct CallSlices<'b> {
    pub name: &'b [u8],
    pub answer: AnswerSlice<'b>,
}

// What a call of this kind was answered.
#[tactic(auto, unfolding(crate::specs::Reading::answer_at))]
fn answer_at(kind: u8, bytes: &[u8]) -> Result<(AnswerSlice<'_>, &[u8]), SaveFault>
    ensures { (name : List ℕ) → Gives (λ x. (call_in_by name x.0, x.1.now)) result (answer_at kind name bytes.now) }
{
    if kind == 1 {
        return Ok((AnswerSlice::Absent, bytes));
    }
    let (text, rest) = string_at(bytes)?;
    if kind == 0 {
        Ok((AnswerSlice::Found(text), rest))
    } else {
        Ok((AnswerSlice::Written(text), rest))
    }
}

#[tactic(auto, unfolding(crate::specs::Reading::call_at))]
fn call_at(bytes: &[u8]) -> Result<(CallSlices<'_>, &[u8]), SaveFault>
    ensures { Gives (λ x. (call_in x.0, x.1.now)) result (call_at bytes.now) }
{
    let (kind, rest) = byte_at(bytes)?;
    if kind > 2 {
        return Err(SaveFault::Broken(Rule::G3));
    }
    let (name, rest) = string_at(rest)?;
    let (answer, rest) = answer_at(kind, rest)?;
    Ok((CallSlices { name, answer }, rest))
}

// A count may be greater than what the bytes hold, so each table grows as its entries are read, and never takes room by its
// count.
fn so_many_calls<'b>(
    alloc: Global,
    count: u32,
    bytes: &'b [u8],
) -> Result<(Vec<CallSlices<'b>>, &'b [u8]), SaveFault>
    ensures { Gives (λ x. (calls_in x.0.items, x.1.now)) result (times call_at count bytes.now) }
{
    let mut calls = Vec::new(alloc);
    let mut rest = bytes;
    for _ in 0..count {
        let (call, after) = call_at(rest)?;
        calls.push(call)?;
        rest = after;
    }
    Ok((calls, rest))
}

/// All calls. The error is G2, G3 where a kind is none, or want of memory.
#[tactic(auto, unfolding(crate::specs::Readers::table_at))]
pub fn calls_at(alloc: Global, bytes: &[u8]) -> Result<(Vec<CallSlices<'_>>, &[u8]), SaveFault>
    ensures { Gives (λ x. (calls_in x.0.items, x.1.now)) result (table_at call_at bytes.now) }
{
    let (count, rest) = count_at(bytes)?;
    so_many_calls(alloc, count, rest)
}
