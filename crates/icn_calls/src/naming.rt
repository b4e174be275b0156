// Calls by name.
ghost use Rattle.std.specs.Prelude.{◌≡◌, List};
ghost use Rattle.icn_code.specs.Codes.{Tables};
ghost use Rattle.icn_heap.specs.Extents.{IsLive, value_in};
ghost use Rattle.icn_heap.specs.Heaps.{extent_of};
ghost use Rattle.icn_run.specs.Rows.{Item};
ghost use Rattle.icn_run.specs.Stacks.{Frames as FramesRead, flat as calls};
ghost use Rattle.icn_run.specs.Step.{Store, invoke_value};
ghost use Rattle.law_names.specs.NamedSettings.{ValueNamed};
ghost use Rattle.icn_calls.specs.Calling.{NamesNothing};

use icn_convert::{Names, to_integer};
use icn_heap::Heap;
use icn_invoke::find;
use icn_value::Val;

/// What is called where this value is: of a text that converts to no integer the procedure, the constructor or the function that it names,
/// where it names one; and else the value itself. It takes no memory.
pub fn named_callee<N: Names>(heap: &Heap, names: &N, callee: Val) -> Val
    requires { IsLive (extent_of heap.now) callee }
    ensures same { (tables : Tables) (items : List Item) (m : FramesRead) (st : Store FramesRead)
        → st.names ≡ N.known names.now
        → invoke_value calls tables (value_in (extent_of heap.now) callee) items m st
        ≡ invoke_value calls tables (value_in (extent_of heap.now) result) items m st }
    ensures nothing { NamesNothing (N.known names.now) (value_in (extent_of heap.now) result) }
    ensures live { IsLive (extent_of heap.now) result }
    ensures named { ValueNamed (N.known names.now) (value_in (extent_of heap.now) callee)
        → ValueNamed (N.known names.now) (value_in (extent_of heap.now) result) }
{
    let Val::Text(span) = callee else {
        return callee;
    };
    if to_integer(heap, callee).is_some() {
        return callee;
    }
    match find(names, heap.bytes(span)) {
        Some(number) => Val::Proc(number),
        None => callee,
    }
}
