// The order of sorted lists.
ghost use Rattle.std.specs.Prelude.{◌≡◌, ◌<◌, List, ℕ};
ghost use Rattle.std.specs.Ordering.{ordering_then, int_cmp, nat_cmp};
ghost use Rattle.std.specs.Cmp.Lexicographic.{slice_cmp};
ghost use Rattle.icn_value.specs.Sameness.{file_rank, shape_of};
ghost use Rattle.icn_value.specs.Members.{members_of};
ghost use Rattle.icn_defs.specs.Images.{record_name, sorted_shape, value_cmp};
ghost use Rattle.icn_heap.specs.Extents.{Extent, IsLive, IsMade, value_in};
ghost use Rattle.icn_heap.specs.Keys.{file_of};
ghost use Rattle.icn_value.specs.declared.val.Val.TheVariants.{Rec};
ghost use Rattle.icn_heap.specs.Heaps.{extent_of, heap_of};
ghost use Rattle.icn_convert.specs.SortTexts.{sorted_by};
ghost use Rattle.icn_convert.specs.ProgramNames.{AreRecordsNamed, IsNamed};

use crate::csets::{CsetText, text_of_cset};
use crate::names::Names;
use icn_heap::Heap;
use icn_value::{File, Val};
use std::cmp::Ordering;

/// The order of two values in a sorted list: by type, and in a type by value, procedures by name and then by number,
/// records by name and then by age, other structures by age. It takes no memory.
pub fn compare<N: Names>(heap: &Heap, names: &N, a: Val, b: Val) -> Ordering
    requires first { IsLive (extent_of heap.now) a }
    requires second { IsLive (extent_of heap.now) b }
    requires first_named { IsNamed (N.known names.now) a }
    requires second_named { IsNamed (N.known names.now) b }
    requires records { AreRecordsNamed (N.known names.now) (heap_of heap.now) }
    ensures { result ≡ value_cmp (N.known names.now) (heap_of heap.now) (value_in (extent_of heap.now) a)
        (value_in (extent_of heap.now) b) }
{
    match rank(a).cmp(&rank(b)) {
        Ordering::Equal => compare_texts(heap, names, a, b).then(number(a).cmp(&number(b))),
        order => order,
    }
}

// The order of the texts by which values of one type are sorted.
fn compare_texts<'a, N: Names>(heap: &'a Heap, names: &'a N, a: Val, b: Val) -> Ordering
    requires first { IsLive (extent_of heap.now) a }
    requires second { IsLive (extent_of heap.now) b }
    requires first_named { IsNamed (N.known names.now) a }
    requires second_named { IsNamed (N.known names.now) b }
    requires records { AreRecordsNamed (N.known names.now) (heap_of heap.now) }
    ensures { result ≡ slice_cmp nat_cmp
        (sorted_shape (N.known names.now) (heap_of heap.now) (value_in (extent_of heap.now) a)).text
        (sorted_shape (N.known names.now) (heap_of heap.now) (value_in (extent_of heap.now) b)).text }
{
    sort_text(heap, names, a)
        .as_bytes()
        .cmp(sort_text(heap, names, b).as_bytes())
}

// The rank of a value's type.
fn rank(val: Val) -> u8
    ensures { (all : Extent) → result ≡ (shape_of (value_in all val)).rank }
{
    match val {
        Val::Null => 0,
        Val::Integer(_) => 1,
        Val::Text(_) => 2,
        Val::Chars(_) => 3,
        Val::Std(_) => 4,
        Val::Coexp(_) => 5,
        Val::Proc(_) => 6,
        Val::List(_) => 7,
        Val::Set(_) => 8,
        Val::Table(_) => 9,
        Val::Rec(_) => 10,
    }
}

// The number by which values of one type are sorted.
fn number(val: Val) -> i64
    ensures { (all : Extent) → result ≡ (shape_of (value_in all val)).number }
{
    match val {
        Val::Integer(n) => n,
        Val::Std(File::Errout) => 0,
        Val::Std(File::Input) => 1,
        Val::Std(File::Output) => 2,
        Val::Std(File::Opened(number)) => 3 + i64::from(number),
        Val::Coexp(id)
        | Val::Proc(id)
        | Val::List(id)
        | Val::Set(id)
        | Val::Table(id)
        | Val::Rec(id) => i64::from(id),
        _ => 0,
    }
}

// The text by which a value is sorted among those of its type.
#[derive(Drop)]
enum SortText<'a> {
    Bytes(&'a [u8]),
    Members(CsetText),
}

impl<'a> SortText<'a> {
    fn as_bytes(&self) -> &[u8]
        ensures { result.now ≡ sorted_by self.now }
    {
        match self {
            SortText::Bytes(bytes) => bytes,
            SortText::Members(members) => members.as_bytes(),
        }
    }
}

fn sort_text<'a, N: Names>(heap: &'a Heap, names: &'a N, val: Val) -> SortText<'a>
    requires live { IsLive (extent_of heap.now) val }
    requires named { IsNamed (N.known names.now) val }
    requires records { AreRecordsNamed (N.known names.now) (heap_of heap.now) }
    ensures { sorted_by result
        ≡ (sorted_shape (N.known names.now) (heap_of heap.now) (value_in (extent_of heap.now) val)).text }
{
    match val {
        Val::Text(span) => SortText::Bytes(heap.bytes(span)),
        Val::Chars(cset) => SortText::Members(text_of_cset(&cset)),
        Val::Proc(number) => SortText::Bytes(names.proc(number)),
        Val::Rec(id) => SortText::Bytes(record_name(heap, names, id)),
        _ => SortText::Bytes(&[]),
    }
}

/// The name of the constructor that made a record, whether the record is there still or not.
#[tactic(auto, using(crate::proofs::NamedRecords::made_kind_named))]
pub fn made_name<'a, N: Names>(heap: &Heap, names: &'a N, id: u32) -> &'a [u8]
    requires made { IsMade (extent_of heap.now) (Rec id) }
    requires records { AreRecordsNamed (N.known names.now) (heap_of heap.now) }
    ensures { result.now ≡ record_name (N.known names.now) (heap_of heap.now) id }
{
    names.rec(heap.kind_made(id))
}

/// The name of the constructor that made a record.
#[tactic(auto, using(crate::proofs::NamedRecords::kind_named))]
pub fn record_name<'a, N: Names>(heap: &Heap, names: &'a N, id: u32) -> &'a [u8]
    requires live { IsLive (extent_of heap.now) (Rec id) }
    requires records { AreRecordsNamed (N.known names.now) (heap_of heap.now) }
    ensures { result.now ≡ record_name (N.known names.now) (heap_of heap.now) id }
{
    names.rec(heap.kind(id))
}
