// The report of a run-time error.
ghost use Rattle.std.specs.Prelude.{◌≡◌, ◌++◌, Some, IfOk, IfSome, OnOk};
ghost use Rattle.std.specs.Option.{option_map};
ghost use Rattle.icn_defs.specs.Errors.{error_report, offending_line};
ghost use Rattle.icn_heap.specs.Extents.{IsLive, value_in};
ghost use Rattle.icn_heap.specs.Heaps.{extent_of, heap_of};
ghost use Rattle.icn_code.specs.CodeTables.{tables_of};
ghost use Rattle.icn_run.specs.Step.{all_names};

use crate::shown::{push, push_image};
use icn_code::Code;
use icn_defs::error_text;
use icn_heap::Heap;
use icn_text::decimal;
use icn_value::Val;
use std::alloc::{AllocError, Global};

/// The report of a run-time error: its number, its text, and the image of the value that it is about, if there is one, each on a
/// line of its own. The error is want of memory.
pub fn error_report(
    alloc: Global,
    code: &Code,
    heap: &Heap,
    number: u16,
    offending: Option<Val>,
) -> Result<Vec<u8>, AllocError>
    requires live { IfSome offending (IsLive (extent_of heap.now)) }
    ensures { IfOk result (λ text. text.items ≡ error_report (all_names (tables_of code.now))
        (heap_of heap.now) number (option_map (value_in (extent_of heap.now)) offending)) }
{
    let mut out = Vec::from_slice(alloc, b"Run-time error ")?;
    out.extend_from_slice(decimal(i64::from(number)).as_bytes())?;
    out.push(b'\n')?;
    out.extend_from_slice(error_text(number))?;
    out.push(b'\n')?;
    push_offending(&mut out, code, heap, offending)?;
    Ok(out)
}

// The line on the value that an error is about, if there is one.
fn push_offending(
    out: &mut Vec<u8>,
    code: &Code,
    heap: &Heap,
    offending: Option<Val>,
) -> Result<(), AllocError>
    requires live { IfSome offending (IsLive (extent_of heap.now)) }
    ensures { OnOk result (out.new.items ≡ out.old.items ++ offending_line (all_names (tables_of code.now))
        (heap_of heap.now) (option_map (value_in (extent_of heap.now)) offending)) }
{
    match offending {
        None => Ok(()),
        Some(val) => push_shown(out, code, heap, val),
    }
}

fn push_shown(out: &mut Vec<u8>, code: &Code, heap: &Heap, val: Val) -> Result<(), AllocError>
    requires live { IsLive (extent_of heap.now) val }
    ensures { OnOk result (out.new.items ≡ out.old.items ++ offending_line (all_names (tables_of code.now))
        (heap_of heap.now) (Some (value_in (extent_of heap.now) val))) }
{
    push(out, b"offending value: ")?;
    push_image(out, code, heap, val)?;
    push(out, b"\n")
}
