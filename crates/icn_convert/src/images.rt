// The images of values.
ghost use Rattle.std.specs.Prelude.{◌≡◌, ◌==◌, ◌+◌, ◌<◌, ◌^◌, ◌++◌, ◌∷◌, [], ℕ, decimal, codes, length, unwrap_or, IfOk, IfSome, OnOk};
ghost use Rattle.std.specs.List.{range_with_len};
ghost use Rattle.std.specs.Map.{lookup};
ghost use Rattle.std.specs.Option.{option_copied};
ghost use Rattle.std.specs.Str.{bytes_eq};
ghost use Rattle.icn_value.specs.Members.{members_of};
ghost use Rattle.icn_value.specs.Sizes.{size_of};
ghost use Rattle.icn_value.specs.Values.{ARecord};
ghost use Rattle.icn_value.specs.declared.val.Val.TheVariants.{Rec, Std};
ghost use Rattle.icn_defs.specs.Images.{cset_image, file_image, image, keyword_csets, numbered_image, procedure_image, record_number};
ghost use Rattle.icn_heap.specs.Extents.{IsLive, value_in};
ghost use Rattle.icn_heap.specs.Heaps.{extent_of, heap_of};
ghost use Rattle.icn_heap.specs.Keys.{file_of};
ghost use Rattle.icn_convert.specs.ProgramNames.{AreRecordsNamed, IsNamed, kind_name, name_count};
ghost use Rattle.icn_convert.specs.ImageEnds.{number_and_size};

use crate::csets::text_of_cset;
use crate::names::{Names, ProcKind};
use crate::order::{made_name, record_name};
use crate::quotes::push_quoted;
use icn_heap::Heap;
use icn_profile::{DOUBLE_QUOTE, SINGLE_QUOTE};
use icn_text::decimal;
use icn_value::{Cset, File, Val};
use std::alloc::{AllocError, Global};

/// The text that shows a value, as `image` gives it. `AllocError` is want of memory.
pub fn image<N: Names>(
    alloc: Global,
    heap: &Heap,
    names: &N,
    val: Val,
) -> Result<Vec<u8>, AllocError>
    requires live { IsLive (extent_of heap.now) val }
    requires named { IsNamed (N.known names.now) val }
    requires records { AreRecordsNamed (N.known names.now) (heap_of heap.now) }
    ensures { IfOk result (λ text. text.items
        ≡ image (N.known names.now) (heap_of heap.now) (value_in (extent_of heap.now) val)) }
{
    let mut out = Vec::new(alloc);
    push_image(&mut out, heap, names, val)?;
    Ok(out)
}

fn push_image<N: Names>(
    out: &mut Vec<u8>,
    heap: &Heap,
    names: &N,
    val: Val,
) -> Result<(), AllocError>
    requires live { IsLive (extent_of heap.now) val }
    requires named { IsNamed (N.known names.now) val }
    requires records { AreRecordsNamed (N.known names.now) (heap_of heap.now) }
    ensures { OnOk result (out.new.items ≡ out.old.items
        ++ image (N.known names.now) (heap_of heap.now) (value_in (extent_of heap.now) val)) }
{
    match val {
        Val::Null => push(out, b"&null"),
        Val::Integer(n) => push(out, decimal(n).as_bytes()),
        Val::Text(span) => push_quoted(out, DOUBLE_QUOTE, heap.bytes(span)),
        Val::Chars(cset) => push_cset(out, &cset),
        Val::Std(file) => push_file(out, heap, file),
        Val::Proc(number) => push_procedure(out, names, number),
        Val::Rec(id) => push_record(out, heap, names, id),
        Val::List(id) => push_structure(out, heap, b"list", id, val),
        Val::Set(id) => push_structure(out, heap, b"set", id, val),
        Val::Table(id) => push_structure(out, heap, b"table", id, val),
        Val::Coexp(id) => push_structure(out, heap, b"co-expression", id, val),
    }
}

fn push(out: &mut Vec<u8>, text: &[u8]) -> Result<(), AllocError>
    ensures { OnOk result (out.new.items ≡ out.old.items ++ text.now) }
{
    out.extend_from_slice(text)
}

/// Appends the image of a file. Of an opened one the name stands in it as it is. The error is want of memory.
pub fn push_file(out: &mut Vec<u8>, heap: &Heap, file: File) -> Result<(), AllocError>
    requires { IsLive (extent_of heap.now) (Std file) }
    ensures { OnOk result
        (out.new.items ≡ out.old.items ++ file_image (heap_of heap.now) (file_of file)) }
{
    match file {
        File::Input => push(out, b"&input"),
        File::Output => push(out, b"&output"),
        File::Errout => push(out, b"&errout"),
        File::Opened(number) => push_named(out, heap.file(number).name()),
    }
}

// The image of an opened file, by its name.
fn push_named(out: &mut Vec<u8>, name: &str) -> Result<(), AllocError>
    ensures { OnOk result
        (out.new.items ≡ out.old.items ++ (codes "file(" ++ (name.now ++ codes ")"))) }
{
    push(out, b"file(")?;
    push(out, name.as_bytes())?;
    push(out, b")")
}

#[tactic(auto, using(crate::proofs::NamedProcedures::procedure_shown))]
fn push_procedure<N: Names>(out: &mut Vec<u8>, names: &N, number: u32) -> Result<(), AllocError>
    requires { number < name_count (N.known names.now) }
    ensures { OnOk result (out.new.items ≡ out.old.items ++ procedure_image (N.known names.now) number) }
{
    push(out, kind_name(names.proc_kind(number)))?;
    push(out, names.proc(number))
}

fn kind_name(kind: ProcKind) -> &'static [u8]
    ensures { result.now ≡ kind_name kind }
{
    match kind {
        ProcKind::Procedure => b"procedure ",
        ProcKind::Constructor => b"record constructor ",
        ProcKind::Function => b"function ",
    }
}

// The image of a structure that is no record: its type, its number from 1 on, and its size.
fn push_structure(
    out: &mut Vec<u8>,
    heap: &Heap,
    name: &[u8],
    id: u32,
    val: Val,
) -> Result<(), AllocError>
    requires { IsLive (extent_of heap.now) val }
    ensures { OnOk result (out.new.items ≡ out.old.items ++ numbered_image name.now (id + 1)
        (size_of (heap_of heap.now) (value_in (extent_of heap.now) val))) }
{
    push(out, name)?;
    push_number(out, u64::from(id) + 1, heap.size(val).unwrap_or(0))
}

fn push_record<N: Names>(
    out: &mut Vec<u8>,
    heap: &Heap,
    names: &N,
    id: u32,
) -> Result<(), AllocError>
    requires live { IsLive (extent_of heap.now) (Rec id) }
    requires records { AreRecordsNamed (N.known names.now) (heap_of heap.now) }
    ensures { OnOk result
        (out.new.items ≡ out.old.items ++ image (N.known names.now) (heap_of heap.now) (ARecord id)) }
{
    push(out, b"record ")?;
    push(out, record_name(heap, names, id))?;
    push_number(
        out,
        record_number(heap, names, id),
        heap.size(Val::Rec(id)).unwrap_or(0),
    )
}

// The number of a structure, and its size.
fn push_number(out: &mut Vec<u8>, number: u64, size: u64) -> Result<(), AllocError>
    requires number { number < 2 ^ 63 }
    requires size { size < 2 ^ 63 }
    ensures { OnOk result (out.new.items ≡ out.old.items ++ number_and_size number size) }
{
    push(out, b"_")?;
    push(out, decimal(number as i64).as_bytes())?;
    push(out, b"(")?;
    push(out, decimal(size as i64).as_bytes())?;
    push(out, b")")
}

// The number of a record among those of its name, from 1 on.
fn record_number<N: Names>(heap: &Heap, names: &N, id: u32) -> u64
    requires live { IsLive (extent_of heap.now) (Rec id) }
    requires records { AreRecordsNamed (N.known names.now) (heap_of heap.now) }
    ensures number { result ≡ record_number (N.known names.now) (heap_of heap.now) id }
    ensures small { result < 2 ^ 63 }
{
    let name = record_name(heap, names, id);
    let mut number = 1;
    for other in 0..id {
        if made_name(heap, names, other) == name {
            number += 1;
        }
    }
    number
}

fn push_cset(out: &mut Vec<u8>, cset: &Cset) -> Result<(), AllocError>
    ensures { OnOk result (out.new.items ≡ out.old.items ++ cset_image (members_of cset.now)) }
{
    let members = text_of_cset(cset);
    match keyword_cset(members.as_bytes()) {
        Some(name) => push(out, name),
        None => push_quoted(out, SINGLE_QUOTE, members.as_bytes()),
    }
}

// The keyword that gives a cset.
fn keyword_cset(members: &[u8]) -> Option<&'static [u8]>
    ensures { option_copied result ≡ lookup (bytes_eq members.now) keyword_csets }
{
    if is_all_below(members, 128) {
        Some(b"&ascii")
    } else if is_all_below(members, 256) {
        Some(b"&cset")
    } else if members == b"0123456789".as_slice() {
        Some(b"&digits")
    } else if members == b"abcdefghijklmnopqrstuvwxyz".as_slice() {
        Some(b"&lcase")
    } else if members == b"ABCDEFGHIJKLMNOPQRSTUVWXYZabcdefghijklmnopqrstuvwxyz".as_slice() {
        Some(b"&letters")
    } else if members == b"ABCDEFGHIJKLMNOPQRSTUVWXYZ".as_slice() {
        Some(b"&ucase")
    } else {
        None
    }
}

// Whether these are the bytes from 0 on, so many.
fn is_all_below(bytes: &[u8], count: usize) -> bool
    ensures { result ≡ bytes_eq bytes.now (range_with_len 0 count) }
{
    if bytes.len() != count {
        return false;
    }
    for (place, byte) in bytes.iter().enumerate() {
        if usize::from(*byte) != place {
            return false;
        }
    }
    true
}
