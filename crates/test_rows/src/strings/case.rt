// A case: a limit, the name of a function and its arguments.
ghost use Rattle.std.specs.Prelude.{◌≡◌, [], IsTrue};
ghost use Rattle.std.specs.List.{All};
ghost use Rattle.icn_convert.specs.ProgramNames.{AreRecordsNamed, IsNamed};
ghost use Rattle.icn_heap.specs.Extents.{IsLive};
ghost use Rattle.icn_heap.specs.Heaps.{extent_of, heap_of};
ghost use Rattle.icn_vars.specs.Outcomes.{IsLiveAnswer, answer_of};
ghost use Rattle.icn_vars.specs.Worlds.{reach_of};
ghost use Rattle.test_values.specs.OneRecord.{one_record};

use icn_strfn::{
    Layout, abs_row, char_row, cset_row, field_row, iand_row, icom_row, image_row, integer_row,
    ior_row, ishift_row, ixor_row, map_row, ord_row, repl_row, reverse_row, seq_row,
    sequence_again, string_row, trim_row, type_row,
};
use icn_text::{Func, func_named};
use icn_value::{Residual, Val};
use icn_vars::{Halt, Outcome, ValueOutcome, World};
use std::alloc::{AllocError, Global};
use test_values::{
    OneRecord, Slots, add_argument, new_world, no_locals, number, push_error, push_item, split_word,
};

/// What the case of a line comes to, behind an arrow. An empty line and a remark have none. `AllocError` is want of memory.
pub fn outcome(alloc: Global, line: &[u8]) -> Result<String, AllocError> {
    let mut out = String::new(alloc);
    if line.is_empty() || line[0] == b'#' {
        return Ok(out);
    }
    out.push_str(" -> ")?;
    let (limit, behind) = split_word(line);
    let (name, args) = split_word(behind);
    let mut w = new_world(alloc, number(limit), 0)?;
    for word in args.split(|byte| *byte == b' ') {
        add_argument(alloc, &mut w, word)?;
    }
    match func_named(name) {
        Some(func) => push_applied(&mut out, &mut w, func)?,
        None => out.push_str("no function")?,
    }
    Ok(out)
}

// Whether each value has a name that needs one.
#[tactic(auto, using(crate::proofs::Unnamed::no_values_named, crate::proofs::Unnamed::values_named))]
fn are_named(vals: &[Val]) -> bool
    ensures { IsTrue result → All (IsNamed one_record) vals.now }
{
    match vals.split_first() {
        None => true,
        Some((first, rest)) => {
            if is_named(*first) {
                are_named(rest)
            } else {
                false
            }
        }
    }
}

// Whether a value has a name or needs none.
fn is_named(val: Val) -> bool
    ensures { IsTrue result → IsNamed one_record val }
{
    match val {
        Val::Null => true,
        Val::Integer(_) => true,
        Val::Text(_) => true,
        Val::Chars(_) => true,
        Val::Std(_) => true,
        Val::Proc(_) => false,
        Val::Rec(_) => true,
        Val::List(_) => true,
        Val::Set(_) => true,
        Val::Table(_) => true,
        Val::Coexp(_) => true,
    }
}

// Appends what a function comes to.
#[tactic(auto, using(crate::proofs::Unnamed::records_named))]
fn push_applied(out: &mut String, w: &mut World, func: Func) -> Result<(), AllocError>
    requires { (heap_of w.old.heap).records ≡ [] }
{
    let args = w.globals.as_slice().to_vec(*w.globals.allocator())?;
    if are_named(&args) {
        let slots = no_locals(*w.globals.allocator());
        let answer = call_function(func, &args, w, &slots);
        push_answer(out, w, &slots, answer)
    } else {
        out.push_str("a procedure")
    }
}

// What a function over integers, texts and csets comes to; another one fails.
fn call_function(func: Func, args: &[Val], w: &mut World, l: &Slots) -> Result<Outcome, Halt>
    requires locals { All (IsLive (extent_of w.old.heap)) l.now.vals.items }
    requires args { All (IsLive (extent_of w.old.heap)) args.now }
    requires named { All (IsNamed one_record) args.now }
    requires records { AreRecordsNamed one_record (heap_of w.old.heap) }
    ensures { IsLiveAnswer (reach_of w.new l.now.vals.items) result }
{
    match func {
        Func::Seq => seq_row(w, l, args),
        _ => {
            let given = row_answer(func, args, w, l)?;
            Ok(given.outcome())
        }
    }
}

// What the row of a function gives that gives a value at most.
fn row_answer(func: Func, args: &[Val], w: &mut World, l: &Slots) -> Result<ValueOutcome, Halt>
    requires locals { All (IsLive (extent_of w.old.heap)) l.now.vals.items }
    requires args { All (IsLive (extent_of w.old.heap)) args.now }
    requires named { All (IsNamed one_record) args.now }
    requires records { AreRecordsNamed one_record (heap_of w.old.heap) }
    ensures { IsLiveAnswer (reach_of w.new l.now.vals.items) (answer_of result) }
{
    match func {
        Func::Abs => abs_row(w, l, args),
        Func::Center => field_row(w, l, Layout::Center, args),
        Func::Char => char_row(w, l, args),
        Func::Cset => cset_row(w, l, args),
        Func::Iand => iand_row(w, l, args),
        Func::Icom => icom_row(w, l, args),
        Func::Image => image_row(&OneRecord, w, l, args),
        Func::Integer => integer_row(w, l, args),
        Func::Ior => ior_row(w, l, args),
        Func::Ishift => ishift_row(w, l, args),
        Func::Ixor => ixor_row(w, l, args),
        Func::Left => field_row(w, l, Layout::Left, args),
        Func::Map => map_row(w, l, args),
        Func::Numeric => integer_row(w, l, args),
        Func::Ord => ord_row(w, l, args),
        Func::Repl => repl_row(w, l, args),
        Func::Reverse => reverse_row(w, l, args),
        Func::Right => field_row(w, l, Layout::Right, args),
        Func::String => string_row(w, l, args),
        Func::Trim => trim_row(w, l, args),
        Func::TypeOf => type_row(&OneRecord, w, l, args),
        _ => Ok(ValueOutcome::Fails),
    }
}

fn push_answer(
    out: &mut String,
    w: &World,
    slots: &Slots,
    answer: Result<Outcome, Halt>,
) -> Result<(), AllocError>
    requires { IsLiveAnswer (reach_of w.now slots.now.vals.items) answer }
{
    match answer {
        Ok(Outcome::Fails) => out.push_str("fails"),
        Ok(Outcome::Gives(item)) => push_item(out, w, slots, item),
        Ok(Outcome::Suspends(item, rest)) => {
            push_item(out, w, slots, item)?;
            push_resumed(out, w, slots, rest)
        }
        Err(Halt::Error(number, offending)) => push_error(out, w, number, offending),
        Err(Halt::NoMemory) => out.push_str("no memory"),
        Err(_) => out.push_str("a fault"),
    }
}

// Appends what a sequence gives next.
fn push_resumed(
    out: &mut String,
    w: &World,
    slots: &Slots,
    rest: Residual,
) -> Result<(), AllocError> {
    match rest {
        Residual::Sequence { given, step } => {
            out.push_str(", then ")?;
            push_later(out, w, slots, sequence_again(given, step))
        }
        _ => out.push_str(", then another"),
    }
}

// Appends what a sequence that goes on answers.
fn push_later(
    out: &mut String,
    w: &World,
    slots: &Slots,
    answer: Result<Outcome, Halt>,
) -> Result<(), AllocError>
    requires { IsLiveAnswer (reach_of w.now slots.now.vals.items) answer }
{
    match answer {
        Ok(Outcome::Suspends(item, _)) => push_item(out, w, slots, item),
        Err(Halt::Error(number, offending)) => push_error(out, w, number, offending),
        _ => out.push_str("another"),
    }
}
