// The image of any value of a heap, whether it has a name or not.
ghost use Rattle.std.specs.Prelude.{◌≡◌, ◌++◌, ◌+◌, ◌<◌, ◌^◌, IfOk, OnOk};
ghost use Rattle.icn_defs.specs.Images.{image, numbered_image, procedure_image, in_quotes, record_number};
ghost use Rattle.icn_value.specs.Sizes.{size_of};
ghost use Rattle.icn_value.specs.Store.{Heap as HeapData, Names};
ghost use Rattle.icn_value.specs.Values.{ARecord};
ghost use Rattle.icn_value.specs.declared.val.Val.TheVariants.{Rec};
ghost use Rattle.icn_heap.specs.Extents.{Extent, IsLive, value_in};
ghost use Rattle.icn_heap.specs.Heaps.{extent_of, heap_of};
ghost use Rattle.icn_code.specs.CodeTables.{tables_of};
ghost use Rattle.icn_convert.specs.ImageEnds.{number_and_size};
ghost use Rattle.icn_convert.specs.ProgramNames.{AreRecordsNamed, name_count};
ghost use Rattle.icn_run.specs.Step.{all_names};
ghost use Rattle.icn_running.specs.PlainValues.{IsPlain};

use crate::names::{has_name, made_name, record_name};
use icn_apply::CodeNames;
use icn_code::Code;
use icn_convert::{image, push_file};
use icn_heap::Heap;
use icn_text::decimal;
use icn_value::{Limits, Val};
use std::alloc::{AllocError, Global};

/// Appends the image of a value. The error is want of memory.
pub fn push_image(out: &mut Vec<u8>, code: &Code, heap: &Heap, val: Val) -> Result<(), AllocError>
    requires live { IsLive (extent_of heap.now) val }
    ensures { OnOk result (out.new.items ≡ out.old.items
        ++ image (all_names (tables_of code.now)) (heap_of heap.now) (value_in (extent_of heap.now) val)) }
{
    match val {
        Val::Null => push_plain(out, code, val),
        Val::Integer(_) => push_plain(out, code, val),
        Val::Text(span) => push_text(out, code, heap.bytes(span)),
        Val::Chars(_) => push_plain(out, code, val),
        Val::Std(file) => push_file(out, heap, file),
        Val::Proc(number) => push_procedure(out, code, number),
        Val::Rec(id) => push_record(out, code, heap, id),
        Val::List(id) => push_structure(out, heap, b"list", id, val),
        Val::Set(id) => push_structure(out, heap, b"set", id, val),
        Val::Table(id) => push_structure(out, heap, b"table", id, val),
        Val::Coexp(id) => push_structure(out, heap, b"co-expression", id, val),
    }
}

/// Appends a text. The error is want of memory.
pub fn push(out: &mut Vec<u8>, text: &[u8]) -> Result<(), AllocError>
    ensures { OnOk result (out.new.items ≡ out.old.items ++ text.now) }
{
    out.extend_from_slice(text)
}

// A heap in which nothing is made.
fn empty_heap(alloc: Global) -> Result<Heap, AllocError>
    ensures { IfOk result (λ heap. (names : Names) → AreRecordsNamed names (heap_of heap)) }
{
    let limits = Limits {
        turns: 0,
        strings: 0,
        cells: 0,
        levels: 1,
    };
    Heap::new(alloc, limits)
}

// The image of a value that is the same in every heap.
#[tactic(auto, using(crate::proofs::PlainImages::plain_image))]
fn push_plain(out: &mut Vec<u8>, code: &Code, val: Val) -> Result<(), AllocError>
    requires { IsPlain val }
    ensures { OnOk result ((names : Names) (heap : HeapData) (all : Extent)
        → out.new.items ≡ out.old.items ++ image names heap (value_in all val)) }
{
    let alloc = *out.allocator();
    let empty = empty_heap(alloc)?;
    let text = image(alloc, &empty, &CodeNames::new(code), val)?;
    out.extend_from_slice(&text)
}

// The image of a text, as a heap has it in which nothing else is.
fn push_text(out: &mut Vec<u8>, code: &Code, bytes: &[u8]) -> Result<(), AllocError>
    ensures { OnOk result (out.new.items ≡ out.old.items ++ in_quotes 34 bytes.now) }
{
    let alloc = *out.allocator();
    let mut other = empty_heap(alloc)?;
    let span = other.hold(bytes)?;
    let text = image(alloc, &other, &CodeNames::new(code), Val::Text(span))?;
    out.extend_from_slice(&text)
}

// The image of a procedure, a constructor or a function; a number without a name is that of a function without one.
fn push_procedure(out: &mut Vec<u8>, code: &Code, number: u32) -> Result<(), AllocError>
    ensures { OnOk result
        (out.new.items ≡ out.old.items ++ procedure_image (all_names (tables_of code.now)) number) }
{
    if has_name(code, number) {
        let text = image_of_named(*out.allocator(), code, number)?;
        out.extend_from_slice(&text)
    } else {
        push(out, b"function ")
    }
}

// The same of one that has a name.
fn image_of_named(alloc: Global, code: &Code, number: u32) -> Result<Vec<u8>, AllocError>
    requires { number < name_count (all_names (tables_of code.now)) }
    ensures { IfOk result (λ text. text.items ≡ procedure_image (all_names (tables_of code.now)) number) }
{
    let empty = empty_heap(alloc)?;
    image(alloc, &empty, &CodeNames::new(code), Val::Proc(number))
}

// The image of a structure that is no record: its type, its number from 1 on, and its size.
fn push_structure(
    out: &mut Vec<u8>,
    heap: &Heap,
    name: &[u8],
    id: u32,
    val: Val,
) -> Result<(), AllocError>
    requires { IsLive (extent_of heap.now) val }
    ensures { OnOk result (out.new.items ≡ out.old.items ++ numbered_image name.now (id + 1)
        (size_of (heap_of heap.now) (value_in (extent_of heap.now) val))) }
{
    out.extend_from_slice(name)?;
    push_number(out, u64::from(id) + 1, heap.size(val).unwrap_or(0))
}

// The image of a record: its name, its number among those of its name, and its size.
fn push_record(out: &mut Vec<u8>, code: &Code, heap: &Heap, id: u32) -> Result<(), AllocError>
    requires { IsLive (extent_of heap.now) (Rec id) }
    ensures { OnOk result (out.new.items ≡ out.old.items
        ++ image (all_names (tables_of code.now)) (heap_of heap.now) (ARecord id)) }
{
    out.extend_from_slice(b"record ")?;
    out.extend_from_slice(record_name(code, heap, id))?;
    push_number(
        out,
        record_number(code, heap, id),
        heap.size(Val::Rec(id)).unwrap_or(0),
    )
}

// The number of a structure, and its size.
fn push_number(out: &mut Vec<u8>, number: u64, size: u64) -> Result<(), AllocError>
    requires number { number < 2 ^ 63 }
    requires size { size < 2 ^ 63 }
    ensures { OnOk result (out.new.items ≡ out.old.items ++ number_and_size number size) }
{
    out.extend_from_slice(b"_")?;
    out.extend_from_slice(decimal(number as i64).as_bytes())?;
    out.extend_from_slice(b"(")?;
    out.extend_from_slice(decimal(size as i64).as_bytes())?;
    out.extend_from_slice(b")")
}

// The number of a record among those of its name, from 1 on.
fn record_number(code: &Code, heap: &Heap, id: u32) -> u64
    requires { IsLive (extent_of heap.now) (Rec id) }
    ensures number { result ≡ record_number (all_names (tables_of code.now)) (heap_of heap.now) id }
    ensures small { result < 2 ^ 63 }
{
    let name = record_name(code, heap, id);
    let mut number = 1;
    for other in 0..id {
        if made_name(code, heap, other) == name {
            number += 1;
        }
    }
    number
}
