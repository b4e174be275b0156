// Sequences in which what goes leaves a gap.
ghost use Rattle.std.specs.Prelude.{◌≡◌, ◌<◌, ◌≤◌, ◌*◌, ◌^◌, ◌++◌, ◌∷◌, [], ℕ, Option, Some, None, length, map, slice_get, slice_set, IfOk, OnOk, OnErr};
ghost use Rattle.icn_structs.specs.Counts.{count_at};
ghost use Rattle.icn_structs.specs.GapLists.{IsCounted, IsCountedTo, IsFilled, present};

use crate::counts::{leaf_of, lower, raise};
use std::alloc::{AllocError, Global};
use std::marker::Model;

/// Numbers, each at an index that stays its own. What goes leaves a gap, and the k-th of those that are there is found in
/// logarithmic time. Only `push` takes memory. A clause sees the list of the indexes, each with the number that is there.
#[derive(Drop)]
pub struct Gaps {
    items: Vec<Option<usize>>,
    counts: Vec<usize>,
    width: usize,
}

impl Model for Gaps {
    ghost use Rattle.std.specs.Prelude.{ℕ, List, Option};
    ghost use Rattle.icn_structs.specs.GapLists.{IsCounted};

    ghost Value = { List (Option ℕ) };

    ghost view = { λ g. g.items.items };

    ghost invariant = { λ g. IsCounted ℕ g.items.items g.counts.items g.width };
}

// Sets all entries to 0.
fn erase(counts: &mut Vec<usize>)
    ensures length { length counts.new.items ≡ length counts.old.items }
    ensures none { (index : ℕ) → count_at counts.new.items index ≡ 0 }
{
    let mut index = 0;
    while index < counts.len() {
        counts[index] = 0;
        index += 1;
    }
}

// Counts what is there, whatever was counted before.
fn recount(counts: &mut Vec<usize>, items: &[Option<usize>], width: usize)
    requires width { length counts.old.items ≡ 2 * width }
    requires within { length items.now ≤ width }
    ensures counted { IsCountedTo ℕ items.now (length items.now) counts.new.items width }
{
    erase(counts);
    let mut index = 0;
    while index < items.len() {
        if items[index].is_some() {
            raise(counts, width, index);
        }
        index += 1;
    }
}

// How wide the tree is once it has a leaf for one index more. An error is want of memory, and nothing changed.
fn widen(
    counts: &mut Vec<usize>,
    items: &[Option<usize>],
    width: usize,
) -> Result<usize, AllocError>
    requires counted { IsCounted ℕ items.now counts.old.items width }
    ensures counted { IfOk result (IsCounted ℕ items.now counts.new.items) }
    ensures wider { IfOk result (λ wider. length items.now < wider) }
    ensures unchanged { OnErr result (counts.new.items ≡ counts.old.items) }
{
    if items.len() < width {
        return Ok(width);
    }
    let wider = if width == 0 { 1 } else { 2 * width };
    counts.resize(2 * wider, 0)?;
    recount(counts, items, wider);
    Ok(wider)
}

impl Gaps {
    /// Nothing.
    pub fn new(alloc: Global) -> Gaps
        ensures { result ≡ [] }
    {
        Gaps {
            items: Vec::new(alloc),
            counts: Vec::new(alloc),
            width: 0,
        }
    }

    /// Puts a number behind all, at the index that is the length. An error is want of memory, and nothing changed.
    pub fn push(&mut self, item: usize) -> Result<(), AllocError>
        ensures added { OnOk result (self.new ≡ self.old ++ Some item ∷ []) }
        ensures unchanged { OnErr result (self.new ≡ self.old) }
    {
        let index = self.items.len();
        self.width = widen(&mut self.counts, &self.items, self.width)?;
        self.items.push(Some(item))?;
        raise(&mut self.counts, self.width, index);
        Ok(())
    }

    /// Leaves a gap at an index where something is.
    pub fn clear(&mut self, index: usize)
        requires filled { IsFilled self.old index }
        ensures gap { self.new ≡ slice_set self.old index None }
    {
        self.items[index] = None;
        lower(&mut self.counts, self.width, index);
    }

    /// Puts another number at an index where something is.
    pub fn set(&mut self, index: usize, item: usize)
        requires filled { IsFilled self.old index }
        ensures other { self.new ≡ slice_set self.old index (Some item) }
    {
        self.items[index] = Some(item);
    }

    /// The number at a place among those that are there, counted from 0. `None` comes exactly where there are not so many.
    pub fn at(&self, place: usize) -> Option<usize>
        ensures item { result ≡ slice_get (present self.now) place }
    {
        if place >= self.count() {
            return None;
        }
        if self.count() == self.items.len() {
            return self.items[place];
        }
        self.items[leaf_of(&self.counts, self.width, place)]
    }

    /// How many are there.
    pub fn count(&self) -> usize
        ensures count { result ≡ length (present self.now) }
        ensures small { length (present self.now) < 2 ^ 63 }
    {
        if self.width == 0 { 0 } else { self.counts[1] }
    }

    /// How many indexes there are, with gaps and without.
    pub fn len(&self) -> usize
        ensures { result ≡ length self.now }
    {
        self.items.len()
    }

    /// Closes all gaps: those that are there stay in their order, at indexes from 0 on.
    pub fn close(&mut self)
        ensures closed { self.new ≡ map Some (present self.old) }
    {
        self.items.retain(|item| item.is_some());
        recount(&mut self.counts, &self.items, self.width);
    }
}
