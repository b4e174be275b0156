// What holds of every heap. A call does nothing: it tells a caller's proof the law.
ghost use Rattle.std.specs.Prelude.{◌≡◌, ◌≢◌, ◌-◌, ◌<◌, ◌≤◌, ◌^◌, ℕ, List, [], length, Ok};
ghost use Rattle.std.specs.List.{IsDistinct};
ghost use Rattle.icn_structs.specs.PairLists.{KeysDiffer};
ghost use Rattle.icn_value.specs.declared.val.Val.TheVariants.{Rec, List as ListVal, Set, Table, Coexp};
ghost use Rattle.icn_value.specs.Values.{Value};
ghost use Rattle.icn_value.specs.Sameness.{same};
ghost use Rattle.icn_value.specs.Store.{Heap as DefinedHeap, set_at, table_at};
ghost use Rattle.icn_value.specs.Changes.{made_list, made_set, made_table, made_record, next_list, next_set, next_table, next_record};
ghost use Rattle.icn_heap.specs.Extents.{IsLive, IsText, text_in};
ghost use Rattle.icn_heap.specs.Heaps.{extent_of, heap_of};

use crate::entries::keys_of_pairs_differ;
use crate::heap::Heap;
use crate::members::keys_of_members_differ;
use crate::spans::as_range;
use icn_strings::{empty_range, length_of_bytes, short_string, within_limit as within_region};
use icn_value::Span;

/// `&main` is of every heap.
#[tactic(auto, unfolding(crate::specs::Heaps::extent_of))]
pub fn main_is_live(heap: &Heap)
    ensures { IsLive (extent_of heap.now) (Coexp 0) }
{}

/// A span of length 0 is a text of every heap, and has no bytes.
#[tactic(auto, unfolding(crate::specs::Heaps::extent_of, crate::specs::Extents::text_in))]
pub fn empty_text(heap: &Heap, span: Span)
    requires { span.len ≡ 0 }
    ensures live { IsText (extent_of heap.now) span }
    ensures bytes { text_in (extent_of heap.now) span ≡ [] }
{
    empty_range(&heap.strings, as_range(span));
}

/// A text has as many bytes as its span says.
#[tactic(auto, unfolding(crate::specs::Heaps::extent_of, crate::specs::Extents::text_in))]
pub fn length_of_text(heap: &Heap, span: Span)
    requires { IsText (extent_of heap.now) span }
    ensures { length (text_in (extent_of heap.now) span) ≡ span.len }
{
    length_of_bytes(&heap.strings, as_range(span));
}

/// A text has so few bytes that each position in it is an `i64`, the one behind its last byte too.
#[tactic(auto, unfolding(crate::specs::Heaps::extent_of, crate::specs::Extents::text_in))]
pub fn short_text(heap: &Heap, span: Span)
    requires { IsText (extent_of heap.now) span }
    ensures { length (text_in (extent_of heap.now) span) < 2 ^ 63 - 1 }
{
    short_string(&heap.strings, as_range(span));
}

/// No heap has charged more cells than its limit.
#[tactic(auto, unfolding(crate::specs::Heaps::heap_of))]
pub fn within_limit(heap: &Heap)
    ensures { (heap_of heap.now).cells ≤ (heap_of heap.now).bounds.cells }
{}

/// No heap has charged more bytes of strings than its limit.
#[tactic(auto, unfolding(crate::specs::Heaps::heap_of))]
pub fn strings_within_limit(heap: &Heap)
    ensures { (heap_of heap.now).strings ≤ (heap_of heap.now).bounds.strings }
{
    within_region(&heap.strings);
}

/// A heap has so few co-expressions that each has a number of 32 bits.
#[tactic(auto, unfolding(crate::specs::Heaps::heap_of))]
pub fn few_coexps(heap: &Heap)
    ensures { length (heap_of heap.now).coexps ≤ 2 ^ 32 }
{}

/// The number of a structure that is of a heap is below how many of its type the heap has.
pub fn live_numbers(heap: &Heap)
    ensures lists { (id : ℕ) → IsLive (extent_of heap.now) (ListVal id)
        → id < length (heap_of heap.now).lists }
    ensures sets { (id : ℕ) → IsLive (extent_of heap.now) (Set id) → id < length (heap_of heap.now).sets }
    ensures tables { (id : ℕ) → IsLive (extent_of heap.now) (Table id)
        → id < length (heap_of heap.now).tables }
    ensures records { (id : ℕ) → IsLive (extent_of heap.now) (Rec id)
        → id < length (heap_of heap.now).records }
    ensures coexps { (id : ℕ) → IsLive (extent_of heap.now) (Coexp id)
        → id < length (heap_of heap.now).coexps }
{}

/// No member of a set is the same as another.
#[tactic(auto, unfolding(crate::specs::Heaps::extent_of))]
pub fn members_differ(heap: &Heap, set: u32)
    requires { IsLive (extent_of heap.now) (Set set) }
    ensures { IsDistinct same (set_at (heap_of heap.now) set) }
{
    keys_of_members_differ(&heap.sets, set);
}

/// No key of a table is the same as another.
#[tactic(auto, unfolding(crate::specs::Heaps::extent_of))]
pub fn keys_differ(heap: &Heap, table: u32)
    requires { IsLive (extent_of heap.now) (Table table) }
    ensures { KeysDiffer same (table_at (heap_of heap.now) table).pairs }
{
    keys_of_pairs_differ(&heap.tables, table);
}

/// Two structures that are made one after the other are two values.
pub fn made_differ()
    ensures lists { (heap made : DefinedHeap) (items : List Value) → made_list heap items ≡ Ok made
        → next_list made ≢ next_list heap }
    ensures sets { (heap made : DefinedHeap) → made_set heap ≡ Ok made → next_set made ≢ next_set heap }
    ensures tables { (heap made : DefinedHeap) (default : Value) → made_table heap default ≡ Ok made
        → next_table made ≢ next_table heap }
    ensures records { (heap made : DefinedHeap) (kind : ℕ) (fields : List Value)
        → made_record heap kind fields ≡ Ok made → next_record made ≢ next_record heap }
{}
