// Structures that are made in a heap whose records have names.
ghost use Rattle.std.specs.Prelude.{◌<◌, ◌≤◌, ◌^◌, length, IfOk};
ghost use Rattle.std.specs.List.{All};
ghost use Rattle.icn_convert.specs.ProgramNames.{AreRecordsNamed};
ghost use Rattle.icn_heap.specs.Extents.{IsLive, KeepsValues};
ghost use Rattle.icn_heap.specs.Heaps.{extent_of, heap_of};
ghost use Rattle.test_store.specs.SomeNames.{some_names};

use icn_heap::{Full, Heap};
use icn_value::{Limits, Val};
use std::alloc::{AllocError, Global};

/// A heap of nothing. `AllocError` is want of memory.
pub fn heap(alloc: Global) -> Result<Heap, AllocError>
    ensures { IfOk result (λ heap. AreRecordsNamed some_names (heap_of heap)) }
{
    let limits = Limits {
        turns: 0,
        strings: 1000,
        cells: 1000,
        levels: 1,
    };
    Ok(Heap::new(alloc, limits)?)
}

/// A text. `AllocError` is want of memory.
pub fn text(heap: &mut Heap, bytes: &[u8]) -> Result<Val, AllocError>
    requires { AreRecordsNamed some_names (heap_of heap.old) }
    ensures live { IfOk result (IsLive (extent_of heap.new)) }
    ensures kept { KeepsValues (extent_of heap.old) (extent_of heap.new) }
    ensures named { AreRecordsNamed some_names (heap_of heap.new) }
{
    Ok(Val::Text(heap.hold(bytes)?))
}

/// A list of so many nulls. The error is the limit that refuses the charge, or want of memory.
pub fn list(heap: &mut Heap, len: u64) -> Result<Val, Full>
    requires { AreRecordsNamed some_names (heap_of heap.old) }
    ensures live { IfOk result (IsLive (extent_of heap.new)) }
    ensures kept { KeepsValues (extent_of heap.old) (extent_of heap.new) }
    ensures named { AreRecordsNamed some_names (heap_of heap.new) }
{
    Ok(heap.make_list(len, Val::Null)?)
}

/// An empty set. The error is the limit that refuses the charge, or want of memory.
pub fn set(heap: &mut Heap) -> Result<Val, Full>
    requires { AreRecordsNamed some_names (heap_of heap.old) }
    ensures live { IfOk result (IsLive (extent_of heap.new)) }
    ensures kept { KeepsValues (extent_of heap.old) (extent_of heap.new) }
    ensures named { AreRecordsNamed some_names (heap_of heap.new) }
{
    Ok(heap.make_set()?)
}

/// An empty table. The error is the limit that refuses the charge, or want of memory.
pub fn table(heap: &mut Heap) -> Result<Val, Full>
    requires { AreRecordsNamed some_names (heap_of heap.old) }
    ensures live { IfOk result (IsLive (extent_of heap.new)) }
    ensures kept { KeepsValues (extent_of heap.old) (extent_of heap.new) }
    ensures named { AreRecordsNamed some_names (heap_of heap.new) }
{
    Ok(heap.make_table(Val::Null)?)
}

/// A record of this constructor with these fields, at most 2^16. The error is the limit that refuses the charge, or want of
/// memory.
pub fn rec(heap: &mut Heap, kind: u16, fields: &[Val]) -> Result<Val, Full>
    requires fields { All (IsLive (extent_of heap.old)) fields.now }
    requires few { length fields.now ≤ 2 ^ 16 }
    requires known { kind < length some_names.records }
    requires named { AreRecordsNamed some_names (heap_of heap.old) }
    ensures live { IfOk result (IsLive (extent_of heap.new)) }
    ensures kept { KeepsValues (extent_of heap.old) (extent_of heap.new) }
    ensures named { AreRecordsNamed some_names (heap_of heap.new) }
{
    Ok(heap.make_rec(kind, fields)?)
}
