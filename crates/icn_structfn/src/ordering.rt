// Values and pairs in the order of sort.
ghost use Rattle.std.specs.Prelude.{◌≡◌, IfOk, length, map};
ghost use Rattle.std.specs.List.{All, range_with_len};
ghost use Rattle.std.specs.List.Sorted.{IsPermutation, IsSorted};
ghost use Rattle.icn_value.specs.Sameness.{same};
ghost use Rattle.icn_defs.specs.Arguments.{arg};
ghost use Rattle.icn_defs.specs.Conversions.{sort_list};
ghost use Rattle.icn_defs.specs.Images.{value_cmp};
ghost use Rattle.icn_defs.specs.Structures.{entry_cmp, key_cmp};
ghost use Rattle.icn_structs.specs.PairLists.{KeysDiffer};
ghost use Rattle.icn_heap.specs.Extents.{AreLive, Extent, IsLive, value_in, values_in};
ghost use Rattle.icn_heap.specs.Heaps.{extent_of, heap_of};
ghost use Rattle.law_names.specs.NamedSettings.{HeapNamed, PairNamed, ValueNamed};
ghost use Rattle.icn_structfn.specs.Sorting.{pair_at};

use icn_args::arg;
use icn_convert::{Names, compare};
use icn_heap::Heap;
use icn_value::Val;
use std::alloc::{AllocError, Global};
use std::cmp::Ordering;

/// These values in order. The error is want of memory.
pub fn in_order<N: Names>(
    alloc: Global,
    heap: &Heap,
    names: &N,
    vals: &[Val],
) -> Result<Vec<Val>, AllocError>
    requires live { All (IsLive (extent_of heap.now)) vals.now }
    requires named { All (ValueNamed (N.known names.now)) (map (value_in (extent_of heap.now)) vals.now) }
    requires heap { HeapNamed (N.known names.now) (heap_of heap.now) }
    ensures order { IfOk result (λ found. map (value_in (extent_of heap.now)) found.items ≡ sort_list
        (value_cmp (N.known names.now) (heap_of heap.now)) (map (value_in (extent_of heap.now)) vals.now)) }
    ensures live { IfOk result (λ found. All (IsLive (extent_of heap.now)) found.items) }
{
    let places = places_by_value(alloc, heap, names, vals)?;
    values_at(alloc, vals, &places)
}

/// Pairs whose keys differ, in the order of their keys. The error is want of memory.
pub fn by_key<N: Names>(
    alloc: Global,
    heap: &Heap,
    names: &N,
    pairs: &[(Val, Val)],
) -> Result<Vec<(Val, Val)>, AllocError>
    requires live { All (AreLive (extent_of heap.now)) pairs.now }
    requires named { All (PairNamed (N.known names.now)) (map (values_in (extent_of heap.now)) pairs.now) }
    requires heap { HeapNamed (N.known names.now) (heap_of heap.now) }
    requires differ { KeysDiffer same (map (values_in (extent_of heap.now)) pairs.now) }
    ensures order { IfOk result (λ found. map (values_in (extent_of heap.now)) found.items ≡ sort_list
        (key_cmp (N.known names.now) (heap_of heap.now)) (map (values_in (extent_of heap.now)) pairs.now)) }
    ensures live { IfOk result (λ found. All (AreLive (extent_of heap.now)) found.items) }
{
    let places = places_by_key(alloc, heap, names, pairs)?;
    pairs_at(alloc, pairs, &places)
}

/// Pairs in the order of their values, and of equal values in that of their keys. The error is want of memory.
pub fn by_entry<N: Names>(
    alloc: Global,
    heap: &Heap,
    names: &N,
    pairs: &[(Val, Val)],
) -> Result<Vec<(Val, Val)>, AllocError>
    requires live { All (AreLive (extent_of heap.now)) pairs.now }
    requires named { All (PairNamed (N.known names.now)) (map (values_in (extent_of heap.now)) pairs.now) }
    requires heap { HeapNamed (N.known names.now) (heap_of heap.now) }
    ensures order { IfOk result (λ found. map (values_in (extent_of heap.now)) found.items ≡ sort_list
        (entry_cmp (N.known names.now) (heap_of heap.now)) (map (values_in (extent_of heap.now)) pairs.now)) }
    ensures live { IfOk result (λ found. All (AreLive (extent_of heap.now)) found.items) }
{
    let places = places_by_entry(alloc, heap, names, pairs)?;
    pairs_at(alloc, pairs, &places)
}

// The places of values, in the order of these. It is places that are sorted, as values may be compared only where they are of the
// heap and have names.
fn places_by_value<N: Names>(
    alloc: Global,
    heap: &Heap,
    names: &N,
    vals: &[Val],
) -> Result<Vec<usize>, AllocError>
    requires live { All (IsLive (extent_of heap.now)) vals.now }
    requires named { All (ValueNamed (N.known names.now)) (map (value_in (extent_of heap.now)) vals.now) }
    requires heap { HeapNamed (N.known names.now) (heap_of heap.now) }
    ensures permutation { IfOk result
        (λ places. IsPermutation (range_with_len 0 (length vals.now)) places.items) }
    ensures sorted { IfOk result (λ places. IsSorted (λ i j. value_cmp (N.known names.now)
        (heap_of heap.now) (arg (map (value_in (extent_of heap.now)) vals.now) i)
        (arg (map (value_in (extent_of heap.now)) vals.now) j)) places.items) }
{
    let mut places = all_places(alloc, vals.len())?;
    places.sort_by(
        |i: &usize, j: &usize|
            requires live { All (IsLive (extent_of heap.now)) vals.now }
            requires named { All (ValueNamed (N.known names.now))
                (map (value_in (extent_of heap.now)) vals.now) }
            requires heap { HeapNamed (N.known names.now) (heap_of heap.now) }
            ensures { result ≡ value_cmp (N.known names.entry.now) (heap_of heap.entry.now)
                (arg (map (value_in (extent_of heap.entry.now)) vals.entry.now) i.entry.now)
                (arg (map (value_in (extent_of heap.entry.now)) vals.entry.now) j.entry.now) }
        { compare_at(heap, names, vals, *i, *j) },
    )?;
    Ok(places)
}

// The places of pairs, in the order of their keys.
fn places_by_key<N: Names>(
    alloc: Global,
    heap: &Heap,
    names: &N,
    pairs: &[(Val, Val)],
) -> Result<Vec<usize>, AllocError>
    requires live { All (AreLive (extent_of heap.now)) pairs.now }
    requires named { All (PairNamed (N.known names.now)) (map (values_in (extent_of heap.now)) pairs.now) }
    requires heap { HeapNamed (N.known names.now) (heap_of heap.now) }
    ensures permutation { IfOk result
        (λ places. IsPermutation (range_with_len 0 (length pairs.now)) places.items) }
    ensures sorted { IfOk result (λ places. IsSorted (λ i j. key_cmp (N.known names.now)
        (heap_of heap.now) (pair_at (map (values_in (extent_of heap.now)) pairs.now) i)
        (pair_at (map (values_in (extent_of heap.now)) pairs.now) j)) places.items) }
{
    let mut places = all_places(alloc, pairs.len())?;
    places.sort_by(
        |i: &usize, j: &usize|
            requires live { All (AreLive (extent_of heap.now)) pairs.now }
            requires named { All (PairNamed (N.known names.now))
                (map (values_in (extent_of heap.now)) pairs.now) }
            requires heap { HeapNamed (N.known names.now) (heap_of heap.now) }
            ensures { result ≡ key_cmp (N.known names.entry.now) (heap_of heap.entry.now)
                (pair_at (map (values_in (extent_of heap.entry.now)) pairs.entry.now) i.entry.now)
                (pair_at (map (values_in (extent_of heap.entry.now)) pairs.entry.now) j.entry.now) }
        { compare_keys_at(heap, names, pairs, *i, *j) },
    )?;
    Ok(places)
}

// The places of pairs, in the order of their values and then of their keys.
fn places_by_entry<N: Names>(
    alloc: Global,
    heap: &Heap,
    names: &N,
    pairs: &[(Val, Val)],
) -> Result<Vec<usize>, AllocError>
    requires live { All (AreLive (extent_of heap.now)) pairs.now }
    requires named { All (PairNamed (N.known names.now)) (map (values_in (extent_of heap.now)) pairs.now) }
    requires heap { HeapNamed (N.known names.now) (heap_of heap.now) }
    ensures permutation { IfOk result
        (λ places. IsPermutation (range_with_len 0 (length pairs.now)) places.items) }
    ensures sorted { IfOk result (λ places. IsSorted (λ i j. entry_cmp (N.known names.now)
        (heap_of heap.now) (pair_at (map (values_in (extent_of heap.now)) pairs.now) i)
        (pair_at (map (values_in (extent_of heap.now)) pairs.now) j)) places.items) }
{
    let mut places = all_places(alloc, pairs.len())?;
    places.sort_by(
        |i: &usize, j: &usize|
            requires live { All (AreLive (extent_of heap.now)) pairs.now }
            requires named { All (PairNamed (N.known names.now))
                (map (values_in (extent_of heap.now)) pairs.now) }
            requires heap { HeapNamed (N.known names.now) (heap_of heap.now) }
            ensures { result ≡ entry_cmp (N.known names.entry.now) (heap_of heap.entry.now)
                (pair_at (map (values_in (extent_of heap.entry.now)) pairs.entry.now) i.entry.now)
                (pair_at (map (values_in (extent_of heap.entry.now)) pairs.entry.now) j.entry.now) }
        { compare_entries_at(heap, names, pairs, *i, *j) },
    )?;
    Ok(places)
}

// As many places as this, from 0 on.
fn all_places(alloc: Global, count: usize) -> Result<Vec<usize>, AllocError>
    ensures { IfOk result (λ places. places.items ≡ range_with_len 0 count) }
{
    (0..count).collect(alloc)
}

// The order of the values at two places.
fn compare_at<N: Names>(heap: &Heap, names: &N, vals: &[Val], i: usize, j: usize) -> Ordering
    requires live { All (IsLive (extent_of heap.now)) vals.now }
    requires named { All (ValueNamed (N.known names.now)) (map (value_in (extent_of heap.now)) vals.now) }
    requires heap { HeapNamed (N.known names.now) (heap_of heap.now) }
    ensures { result ≡ value_cmp (N.known names.now)
        (heap_of heap.now) (arg (map (value_in (extent_of heap.now)) vals.now) i)
        (arg (map (value_in (extent_of heap.now)) vals.now) j) }
{
    compare(heap, names, arg(vals, i), arg(vals, j))
}

// The order of the keys of the pairs at two places.
fn compare_keys_at<N: Names>(
    heap: &Heap,
    names: &N,
    pairs: &[(Val, Val)],
    i: usize,
    j: usize,
) -> Ordering
    requires live { All (AreLive (extent_of heap.now)) pairs.now }
    requires named { All (PairNamed (N.known names.now)) (map (values_in (extent_of heap.now)) pairs.now) }
    requires heap { HeapNamed (N.known names.now) (heap_of heap.now) }
    ensures { result ≡ key_cmp (N.known names.now) (heap_of heap.now)
        (pair_at (map (values_in (extent_of heap.now)) pairs.now) i)
        (pair_at (map (values_in (extent_of heap.now)) pairs.now) j) }
{
    let first = pair_at(pairs, i);
    let second = pair_at(pairs, j);
    compare(heap, names, first.0, second.0)
}

// The order of the pairs at two places, by value and then by key.
fn compare_entries_at<N: Names>(
    heap: &Heap,
    names: &N,
    pairs: &[(Val, Val)],
    i: usize,
    j: usize,
) -> Ordering
    requires live { All (AreLive (extent_of heap.now)) pairs.now }
    requires named { All (PairNamed (N.known names.now)) (map (values_in (extent_of heap.now)) pairs.now) }
    requires heap { HeapNamed (N.known names.now) (heap_of heap.now) }
    ensures { result ≡ entry_cmp (N.known names.now)
        (heap_of heap.now) (pair_at (map (values_in (extent_of heap.now)) pairs.now) i)
        (pair_at (map (values_in (extent_of heap.now)) pairs.now) j) }
{
    let first = pair_at(pairs, i);
    let second = pair_at(pairs, j);
    compare(heap, names, first.1, second.1).then(compare_keys_at(heap, names, pairs, i, j))
}

// The pair at a place, which is one of nulls where it is missing.
fn pair_at(pairs: &[(Val, Val)], place: usize) -> (Val, Val)
    ensures values { (all : Extent) → values_in all result ≡ pair_at (map (values_in all) pairs.now) place }
    ensures live { (all : Extent) → All (AreLive all) pairs.now → AreLive all result }
{
    pairs.get(place).copied().unwrap_or((Val::Null, Val::Null))
}

// The values at these places.
fn values_at(alloc: Global, vals: &[Val], places: &[usize]) -> Result<Vec<Val>, AllocError>
    ensures values { IfOk result (λ found. (all : Extent)
        → map (value_in all) found.items ≡ map (arg (map (value_in all) vals.now)) places.now) }
    ensures live { IfOk result
        (λ found. (all : Extent) → All (IsLive all) vals.now → All (IsLive all) found.items) }
{
    let mut found = Vec::new(alloc);
    let mut rest = places;
    while let Some((first, others)) = rest.split_first() {
        found.push(arg(vals, *first))?;
        rest = others;
    }
    Ok(found)
}

// The pairs at these places.
fn pairs_at(
    alloc: Global,
    pairs: &[(Val, Val)],
    places: &[usize],
) -> Result<Vec<(Val, Val)>, AllocError>
    ensures values { IfOk result (λ found. (all : Extent)
        → map (values_in all) found.items ≡ map (pair_at (map (values_in all) pairs.now)) places.now) }
    ensures live { IfOk result
        (λ found. (all : Extent) → All (AreLive all) pairs.now → All (AreLive all) found.items) }
{
    let mut found = Vec::new(alloc);
    let mut rest = places;
    while let Some((first, others)) = rest.split_first() {
        found.push(pair_at(pairs, *first))?;
        rest = others;
    }
    Ok(found)
}
