// A case: a limit of cells, and calls.
ghost use Rattle.std.specs.Prelude.{◌≡◌, [], IfOk, IfSome, IsTrue, OnOk};
ghost use Rattle.icn_heap.specs.Extents.{IsLive, value_in};
ghost use Rattle.icn_heap.specs.Heaps.{extent_of};
ghost use Rattle.law_names.specs.NamedSettings.{ItemNamed, ValueNamed};
ghost use Rattle.icn_vars.specs.Outcomes.{IsLiveAnswer, IsLiveHalt, IsLiveOutcome};
ghost use Rattle.icn_vars.specs.Worlds.{IsLiveItem, item_in, reach_of};
ghost use Rattle.test_rows.specs.Naming.{AllNamed, ComesNamed};
ghost use Rattle.test_values.specs.OneRecord.{one_record};

use crate::structures::arguments::{add_word, no_arguments, world};
use crate::structures::calls::{argument, call_by_name};
use crate::structures::outcomes::{push_shown, push_value};
use icn_value::{Item, Val};
use icn_vars::{Halt, Outcome, World};
use std::alloc::{AllocError, Global};
use test_values::{Slots, no_locals, number, split};

/// What the calls of a line come to, behind an arrow. An empty line and a remark have none, and an error is the last.
#[tactic(auto, using(crate::proofs::Worlds::without_locals))]
pub fn outcome(alloc: Global, line: &[u8]) -> Result<String, AllocError> {
    let mut out = String::new(alloc);
    if line.is_empty() || line[0] == b'#' {
        return Ok(out);
    }
    out.push_str(" ->")?;
    let (limit, calls) = split(line, b';');
    let l = no_locals(alloc);
    let mut w = world(alloc, number(limit))?;
    for call in calls.split(|byte| *byte == b';') {
        out.push(' ')?;
        if push_call(&mut out, &mut w, &l, call)? {
            continue;
        }
        return Ok(out);
    }
    Ok(out)
}

// Makes a call, and appends what it comes to. Whether the case goes on.
fn push_call(out: &mut String, w: &mut World, l: &Slots, call: &[u8]) -> Result<bool, AllocError>
    requires locals { l.now.vals.items ≡ [] }
    requires named { AllNamed w.old l.now.vals.items }
    ensures { IfOk result (λ goes_on. IsTrue goes_on → AllNamed w.new l.now.vals.items) }
{
    let (name, args) = split(call, b' ');
    no_arguments(w, l);
    for word in args.split(|byte| *byte == b' ') {
        add_word(w, l, word)?;
    }
    if name == b"show".as_slice() {
        push_shown(out, &w.heap, argument(w, 0))?;
        return Ok(true);
    }
    let answer = call_by_name(w, l, name);
    push_answer(out, w, l, answer)
}

fn push_answer(
    out: &mut String,
    w: &mut World,
    l: &Slots,
    answer: Result<Outcome, Halt>,
) -> Result<bool, AllocError>
    requires live { IsLiveAnswer (reach_of w.old l.now.vals.items) answer }
    requires named { IfOk answer (ComesNamed w.old l.now.vals.items) }
    ensures { IfOk result (λ goes_on. IsTrue goes_on → AllNamed w.new l.now.vals.items) }
{
    match answer {
        Ok(outcome) => {
            push_outcome(out, w, l, outcome)?;
            Ok(true)
        }
        Err(halt) => {
            push_halt(out, w, l, halt)?;
            Ok(false)
        }
    }
}

// Appends what is given, which becomes the next value by its number; nothing counts as null.
fn push_outcome(
    out: &mut String,
    w: &mut World,
    l: &Slots,
    outcome: Outcome,
) -> Result<(), AllocError>
    requires live { IsLiveOutcome (reach_of w.old l.now.vals.items) outcome }
    requires named { ComesNamed w.old l.now.vals.items outcome }
    ensures { OnOk result (AllNamed w.new l.now.vals.items) }
{
    match outcome {
        Outcome::Fails => {
            out.push_str("fails")?;
            keep(w, l, Val::Null)
        }
        Outcome::Gives(item) => push_item(out, w, l, item),
        Outcome::Suspends(item, _) => {
            push_item(out, w, l, item)?;
            out.push_str(" ..")
        }
    }
}

fn push_item(out: &mut String, w: &mut World, l: &Slots, item: Item) -> Result<(), AllocError>
    requires live { IsLiveItem (reach_of w.old l.now.vals.items) item }
    requires named { ItemNamed one_record (item_in (extent_of w.old.heap) item) }
    requires all { AllNamed w.old l.now.vals.items }
    ensures { OnOk result (AllNamed w.new l.now.vals.items) }
{
    match item {
        Item::Val(val) => {
            push_value(out, &w.heap, val)?;
            keep(w, l, val)
        }
        Item::Var(_) => out.push_str("a variable"),
    }
}

// Keeps a value by the next number.
#[tactic(auto, using(test_values::proofs::AddedVariables::global_added, crate::proofs::Worlds::global_named))]
fn keep(w: &mut World, l: &Slots, val: Val) -> Result<(), AllocError>
    requires live { IsLive (extent_of w.old.heap) val }
    requires named { ValueNamed one_record (value_in (extent_of w.old.heap) val) }
    requires all { AllNamed w.old l.now.vals.items }
    ensures { OnOk result (AllNamed w.new l.now.vals.items) }
{
    w.globals.push(val)?;
    Ok(())
}

fn push_halt(out: &mut String, w: &World, l: &Slots, halt: Halt) -> Result<(), AllocError>
    requires { IsLiveHalt (reach_of w.now l.now.vals.items) halt }
{
    match halt {
        Halt::Error(number, offending) => push_error(out, w, number, offending),
        Halt::NoMemory => out.push_str("no memory"),
        _ => out.push_str("a fault"),
    }
}

fn push_error(
    out: &mut String,
    w: &World,
    number: u16,
    offending: Option<Val>,
) -> Result<(), AllocError>
    requires { IfSome offending (IsLive (extent_of w.now.heap)) }
{
    out.push_str("error ")?;
    push_value(out, &w.heap, Val::Integer(i64::from(number)))?;
    match offending {
        Some(val) => {
            out.push_str(" about ")?;
            push_value(out, &w.heap, val)
        }
        None => Ok(()),
    }
}
