// Images of values, and their order.
ghost use Rattle.std.specs.Prelude.{IsTrue};
ghost use Rattle.std.specs.List.{All};
ghost use Rattle.icn_convert.specs.ProgramNames.{AreRecordsNamed, IsNamed};
ghost use Rattle.icn_heap.specs.Extents.{IsLive};
ghost use Rattle.icn_heap.specs.Heaps.{extent_of, heap_of};
ghost use Rattle.test_store.specs.SomeNames.{some_names};

use crate::convert::names::SomeNames;
use crate::convert::structures::heap;
use crate::convert::values::values;
use icn_convert::{compare, image};
use icn_heap::Heap;
use icn_value::Val;
use std::alloc::{AllocError, Global};
use std::cmp::Ordering;

/// What a case comes to: the image of its last value, or the order of its last two. `AllocError` is want of memory.
pub fn outcome(alloc: Global, line: &str) -> Result<String, AllocError> {
    let mut out = String::new(alloc);
    let (name, words) = line.split_once(" ").unwrap_or((line, ""));
    let mut heap = heap(alloc)?;
    match values(alloc, &mut heap, words) {
        Ok(vals) => {
            let first = from_end(&heap, &vals, 1);
            let second = from_end(&heap, &vals, 0);
            match name {
                "image" => push_image(alloc, &mut out, &heap, second)?,
                _ => push_both(&mut out, &heap, first, second)?,
            }
        }
        Err(_) => out.push_str("too large")?,
    }
    Ok(out)
}

// One of some values by its place from the end, or null.
fn from_end(heap: &Heap, vals: &[Val], place: usize) -> Val
    requires { All (IsLive (extent_of heap.now)) vals.now }
    ensures { IsLive (extent_of heap.now) result }
{
    let _heap = heap;
    if place < vals.len() {
        vals[vals.len() - 1 - place]
    } else {
        Val::Null
    }
}

// Whether a value has a name or needs none: there is a procedure, two constructors, and the functions.
fn is_named(val: Val) -> bool
    ensures { IsTrue result → IsNamed some_names val }
{
    match val {
        Val::Null => true,
        Val::Integer(_) => true,
        Val::Text(_) => true,
        Val::Chars(_) => true,
        Val::Std(_) => true,
        Val::Proc(number) => number < 59,
        Val::Rec(_) => true,
        Val::List(_) => true,
        Val::Set(_) => true,
        Val::Table(_) => true,
        Val::Coexp(_) => true,
    }
}

fn push_image(alloc: Global, out: &mut String, heap: &Heap, val: Val) -> Result<(), AllocError>
    requires live { IsLive (extent_of heap.now) val }
    requires records { AreRecordsNamed some_names (heap_of heap.now) }
{
    if !is_named(val) {
        return out.push_str("no name");
    }
    for byte in &image(alloc, heap, &SomeNames, val)? {
        out.push(char::from(*byte))?;
    }
    Ok(())
}

// The order of two values, and that of the second and the first.
fn push_both(out: &mut String, heap: &Heap, a: Val, b: Val) -> Result<(), AllocError>
    requires first { IsLive (extent_of heap.now) a }
    requires second { IsLive (extent_of heap.now) b }
    requires records { AreRecordsNamed some_names (heap_of heap.now) }
{
    if !is_named(a) {
        return out.push_str("no name");
    }
    if !is_named(b) {
        return out.push_str("no name");
    }
    push_order(out, compare(heap, &SomeNames, a, b))?;
    out.push(' ')?;
    push_order(out, compare(heap, &SomeNames, b, a))
}

fn push_order(out: &mut String, order: Ordering) -> Result<(), AllocError> {
    match order {
        Ordering::Less => out.push('<'),
        Ordering::Equal => out.push('='),
        Ordering::Greater => out.push('>'),
    }
}
