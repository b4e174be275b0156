// The names that a code gives, by any number: nothing has a name that the code does not give.
ghost use Rattle.std.specs.Prelude.{◌≡◌, nat_lt, slice_get, slice_index_or, unwrap_or, []};
ghost use Rattle.icn_code.specs.CodeTables.{tables_of};
ghost use Rattle.icn_defs.specs.Images.{record_name};
ghost use Rattle.icn_heap.specs.Extents.{IsLive, IsMade};
ghost use Rattle.icn_heap.specs.Heaps.{extent_of, heap_of};
ghost use Rattle.icn_value.specs.declared.val.Val.TheVariants.{Rec};
ghost use Rattle.icn_convert.specs.ProgramNames.{name_count};
ghost use Rattle.icn_run.specs.Step.{all_names};

use icn_code::Code;
use icn_heap::Heap;
use icn_text::Func;

// A string of the code, or nothing where it has none there.
fn text(code: &Code, place: u32) -> &[u8]
    ensures { result.now ≡ slice_index_or (tables_of code.now).strings place [] }
{
    match code.strings.get(place as usize) {
        Some(bytes) => bytes.as_slice(),
        None => &[],
    }
}

// The name of a kind of record.
fn kind_name(code: &Code, kind: u16) -> &[u8]
    ensures { result.now ≡ unwrap_or (slice_get (all_names (tables_of code.now)).records kind) [] }
{
    let place = kind as usize;
    if place < code.records.len() {
        text(code, code.records[place].name)
    } else {
        &[]
    }
}

/// The name of a record, whether it is there still or not.
pub fn made_name<'a>(code: &'a Code, heap: &Heap, id: u32) -> &'a [u8]
    requires { IsMade (extent_of heap.now) (Rec id) }
    ensures { result.now ≡ record_name (all_names (tables_of code.now)) (heap_of heap.now) id }
{
    kind_name(code, heap.kind_made(id))
}

/// The name of a record.
pub fn record_name<'a>(code: &'a Code, heap: &Heap, id: u32) -> &'a [u8]
    requires { IsLive (extent_of heap.now) (Rec id) }
    ensures { result.now ≡ record_name (all_names (tables_of code.now)) (heap_of heap.now) id }
{
    kind_name(code, heap.kind(id))
}

/// Whether a number is that of a procedure, a constructor or a function.
pub fn has_name(code: &Code, number: u32) -> bool
    ensures { result ≡ nat_lt number (name_count (all_names (tables_of code.now))) }
{
    let place = number as usize;
    let procs = code.procs.len();
    if place < procs {
        return true;
    }
    let records = code.records.len();
    place - procs < records || place - procs - records < Func::ALL.len()
}
