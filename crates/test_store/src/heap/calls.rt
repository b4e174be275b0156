// The calls of a heap, by their names.
ghost use Rattle.std.specs.Prelude.{IfOk, IfSome};
ghost use Rattle.std.specs.List.{All};
ghost use Rattle.icn_heap.specs.Extents.{Extent, IsLive, IsText};
ghost use Rattle.icn_heap.specs.Heaps.{extent_of};

use crate::heap::arguments::place_of;
use crate::heap::showing::{push_count, push_done, push_flag, push_found, push_full, push_made};
use crate::heap::structures::{on_list, on_record};
use crate::heap::tables::{on_set, on_table};
use icn_args::arg;
use icn_convert::{same, to_cset, to_integer, to_text};
use icn_heap::{Full, length_of_text, main_is_live};
use icn_value::{Span, Val};
use icn_vars::World;
use std::alloc::AllocError;

// A record has at most so many fields.
const MOST_FIELDS: usize = 1 << 16;

/// What a call comes to. One of a structure or a text has it as its first argument. `AllocError` is want of memory.
pub fn push_call_result(
    out: &mut String,
    w: &mut World,
    word: &str,
    args: &[Val],
) -> Result<(), AllocError>
    requires { All (IsLive (extent_of w.old.heap)) args.now }
{
    let x = arg(args, 0);
    let y = arg(args, 1);
    let z = arg(args, 2);
    match word {
        "list" | "set" | "table" | "members" | "record" => make(out, w, word, x, args),
        "integer" | "cset" | "text" | "same" | "size" => convert(out, w, word, x, y),
        "remove" => {
            let removed = w.heap.remove(x, y)?;
            push_flag(out, removed)
        }
        _ => match x {
            Val::Integer(n) => by_number(out, w, word, n.unsigned_abs(), y),
            Val::Text(span) => on_text(out, w, word, span, y, z),
            Val::List(list) => on_list(out, w, word, list, y, z),
            Val::Set(set) => on_set(out, w, word, set, y),
            Val::Table(table) => on_table(out, w, word, table, y, z),
            Val::Rec(rec) => on_record(out, w, word, rec, y, z),
            _ => out.push_str("no call"),
        },
    }
}

// A structure that is made of values.
fn make(out: &mut String, w: &mut World, word: &str, x: Val, args: &[Val]) -> Result<(), AllocError>
    requires first { IsLive (extent_of w.old.heap) x }
    requires all { All (IsLive (extent_of w.old.heap)) args.now }
{
    let made = structure_of(w, word, x, args);
    push_made(out, w, made)
}

fn structure_of(w: &mut World, word: &str, x: Val, args: &[Val]) -> Result<Val, Full>
    requires first { IsLive (extent_of w.old.heap) x }
    requires all { All (IsLive (extent_of w.old.heap)) args.now }
    ensures { IfOk result (IsLive (extent_of w.new.heap)) }
{
    match word {
        "list" => w.heap.list_from(args),
        "set" => w.heap.make_set(),
        "table" => w.heap.make_table(x),
        "members" => w.heap.set_from(args),
        _ if args.len() <= MOST_FIELDS => w.heap.make_rec(7, args),
        _ => Err(Full::NoMemory),
    }
}

// What a value converts to, its size, and whether it is the same as another.
fn convert(out: &mut String, w: &mut World, word: &str, x: Val, y: Val) -> Result<(), AllocError>
    requires first { IsLive (extent_of w.old.heap) x }
    requires second { IsLive (extent_of w.old.heap) y }
{
    match word {
        "integer" => push_found(out, &w.heap, integer_val(to_integer(&w.heap, x))),
        "cset" => match to_cset(&w.heap, x) {
            Some(cset) => push_found(out, &w.heap, Some(Val::Chars(cset))),
            None => out.push_str("none"),
        },
        "text" => match to_text(&mut w.heap, x) {
            Ok(Some(span)) => push_made(out, w, Ok(Val::Text(span))),
            Ok(None) => out.push_str("none"),
            Err(full) => push_full(out, full),
        },
        "same" => push_flag(out, same(&w.heap, x, y)),
        _ => push_count(out, w.heap.size(x)),
    }
}

fn integer_val(n: Option<i64>) -> Option<Val>
    ensures { (all : Extent) → IfSome result (IsLive all) }
{
    match n {
        Some(n) => Some(Val::Integer(n)),
        None => None,
    }
}

// Calls that take a number: a list of so many values, what there is room for, and co-expressions of so many locals.
fn by_number(out: &mut String, w: &mut World, word: &str, n: u64, y: Val) -> Result<(), AllocError>
    requires { IsLive (extent_of w.old.heap) y }
{
    match word {
        "fill" => {
            let made = w.heap.make_list(n, y);
            push_made(out, w, made)
        }
        "cells" => push_done(out, w.heap.room_for_cells(n)),
        "coexpression" => push_done(out, w.heap.charge_coexp(n)),
        "count" => {
            count(w);
            main_is_live(&w.heap);
            push_count(out, w.heap.size(Val::Coexp(0)))
        }
        _ => out.push_str("no call"),
    }
}

// Counts a result of the main co-expression.
fn count(w: &mut World) {
    main_is_live(&w.heap);
    match w.heap.size(Val::Coexp(0)) {
        Some(n) => {
            if n < 100 {
                w.heap.count(0);
            }
        }
        None => (),
    }
}

// Calls on texts.
fn on_text(
    out: &mut String,
    w: &mut World,
    word: &str,
    span: Span,
    y: Val,
    z: Val,
) -> Result<(), AllocError>
    requires text { IsText (extent_of w.old.heap) span }
    requires second { IsLive (extent_of w.old.heap) y }
{
    let made = text_of(w, word, span, y, z)?;
    push_made(out, w, made)
}

fn text_of(
    w: &mut World,
    word: &str,
    span: Span,
    y: Val,
    z: Val,
) -> Result<Result<Val, Full>, AllocError>
    requires text { IsText (extent_of w.old.heap) span }
    requires second { IsLive (extent_of w.old.heap) y }
    ensures { IfOk result (λ made. IfOk made (IsLive (extent_of w.new.heap))) }
{
    match word {
        "build" => build(w, span),
        "join" => match y {
            Val::Text(other) => Ok(join(w, span, other)),
            _ => Ok(Ok(Val::Text(span))),
        },
        "part" => {
            let part = part(w, span, place_of(y), place_of(z));
            Ok(Ok(Val::Text(part)))
        }
        _ => Ok(Ok(Val::Text(span))),
    }
}

// A text of the same bytes, which is charged.
fn build(w: &mut World, span: Span) -> Result<Result<Val, Full>, AllocError>
    requires { IsText (extent_of w.old.heap) span }
    ensures { IfOk result (λ made. IfOk made (IsLive (extent_of w.new.heap))) }
{
    let bytes = w.heap.bytes(span).to_vec(*w.globals.allocator())?;
    match w.heap.build(&bytes) {
        Ok(span) => Ok(Ok(Val::Text(span))),
        Err(full) => Ok(Err(full)),
    }
}

fn join(w: &mut World, first: Span, second: Span) -> Result<Val, Full>
    requires first { IsText (extent_of w.old.heap) first }
    requires second { IsText (extent_of w.old.heap) second }
    ensures { IfOk result (IsLive (extent_of w.new.heap)) }
{
    Ok(Val::Text(w.heap.join(first, second)?))
}

// A part of a text, or the whole where it has none there.
fn part(w: &World, span: Span, from: u64, len: u64) -> Span
    requires { IsText (extent_of w.now.heap) span }
    ensures { IsText (extent_of w.now.heap) result }
{
    length_of_text(&w.heap, span);
    if from <= span.len && len <= span.len - from {
        w.heap.part(span, from, len)
    } else {
        span
    }
}
