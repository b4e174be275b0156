// A case: what fails or is short, the input, and a call.
ghost use Rattle.std.specs.List.{All};
ghost use Rattle.icn_heap.specs.Extents.{Extent, IsLive};
ghost use Rattle.icn_heap.specs.Heaps.{extent_of};
ghost use Rattle.icn_vars.specs.Outcomes.{IsLiveAnswer, answer_of};
ghost use Rattle.icn_vars.specs.Worlds.{reach_of};

use crate::apply::{TestStreams, new_streams, push_halt, push_item, push_streams};
use icn_iofn::exit;
use icn_streams::Streams;
use icn_text::{Func, func_named};
use icn_value::{Item, Val};
use icn_vars::{Halt, ValueOutcome, World};
use std::alloc::{AllocError, Global};
use test_values::{Slots, new_world, no_locals, plain};

/// What the call of a line comes to, what is left of the input, and what was put on both outputs. `AllocError` is want of memory.
pub fn outcome(alloc: Global, line: &str) -> Result<String, AllocError> {
    let (word, rest) = line.split_once(";").unwrap_or((line, ""));
    let (input, words) = rest.split_once(";").unwrap_or((rest, ""));
    let (name, values) = words.split_once(" ").unwrap_or((words, ""));
    let (first, second) = values.split_once(" ").unwrap_or((values, ""));
    let Some(func) = func_named(name.as_bytes()) else {
        return String::from_str(alloc, "no function");
    };
    let given = input.replace(alloc, "¶", "\n")?;
    let mut streams = new_streams(alloc, word, given.as_bytes())?;
    let strings = if word == "1" { 1 } else { 1000 };
    let mut out = call(
        alloc,
        strings,
        func,
        value(first.as_bytes()),
        value(second.as_bytes()),
        &mut streams,
    )?;
    out.push(' ')?;
    push_streams(&mut out, &streams)?;
    Ok(out)
}

// The value of a word: a procedure value, or one that takes no memory.
fn value(word: &[u8]) -> Val
    ensures { (all : Extent) → IsLive all result }
{
    match word.split_first() {
        Some((b'^', _)) => Val::Proc(0),
        _ => plain(word),
    }
}

// What a call comes to in a world in which so many string bytes may be charged.
fn call(
    alloc: Global,
    strings: u64,
    func: Func,
    x: Val,
    y: Val,
    streams: &mut TestStreams,
) -> Result<String, AllocError>
    requires first { (all : Extent) → IsLive all x }
    requires second { (all : Extent) → IsLive all y }
{
    let mut out = String::new(alloc);
    let mut w = new_world(alloc, strings, 1000)?;
    let locals = no_locals(alloc);
    let args = [x, y];
    let outcome = call_function(func, &args, &mut w, &locals, streams);
    push_outcome(&mut out, &w, &locals, outcome)?;
    Ok(out)
}

// What one of the functions comes to that read, write and end the program; another one fails.
fn call_function(
    func: Func,
    vals: &[Val],
    w: &mut World,
    l: &Slots,
    streams: &mut TestStreams,
) -> Result<ValueOutcome, Halt>
    requires locals { All (IsLive (extent_of w.old.heap)) l.now.vals.items }
    requires live { All (IsLive (extent_of w.old.heap)) vals.now }
    ensures { IsLiveAnswer (reach_of w.new l.now.vals.items) (answer_of result) }
{
    match func {
        Func::Exit => exit(&w.heap, vals),
        Func::Read => streams.read(vals, w, l),
        Func::Reads => streams.reads(vals, w, l),
        Func::Stop => streams.stop(vals, w, l),
        Func::Write => streams.write(vals, w, l),
        Func::Writes => streams.writes(vals, w, l),
        _ => Ok(ValueOutcome::Fails),
    }
}

fn push_outcome(
    out: &mut String,
    w: &World,
    l: &Slots,
    outcome: Result<ValueOutcome, Halt>,
) -> Result<(), AllocError>
    requires live { IsLiveAnswer (reach_of w.now l.now.vals.items) (answer_of outcome) }
    requires locals { All (IsLive (extent_of w.now.heap)) l.now.vals.items }
{
    match outcome {
        Ok(ValueOutcome::Fails) => out.push_str("fails"),
        Ok(ValueOutcome::Gives(val)) => push_item(out, w, l, Item::Val(val)),
        Err(halt) => push_halt(out, w, l, halt),
    }
}
