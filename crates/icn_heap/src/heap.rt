// The heap.
ghost use Rattle.icn_heap.specs.HeapParts.{parts, IsSoundHeap, IsSound-prop};

use crate::counts::add_count;
use crate::entries::Entries;
use crate::fields::RecordShelf;
use crate::file_entries::FileEntry;
use crate::members::MemberMap;
use icn_strings::Region;
use icn_structs::{Deque, Shelf};
use icn_value::{Limits, Val};
use std::alloc::{AllocError, Global};

/// The strings and structures of a program, the files that it opened, and what is charged for them.
///
/// What a value stands for is the same from then on, whatever is made beside it or given back. `collect` alone gives memory back.
#[derive(Drop)]
pub struct Heap {
    pub(crate) alloc: Global,
    pub(crate) strings: Region,
    pub(crate) lists: Shelf<Deque<Val>>,
    pub(crate) sets: Shelf<MemberMap>,
    pub(crate) tables: Shelf<Entries>,
    pub(crate) records: RecordShelf,
    pub(crate) coexps: Vec<u64>,
    pub(crate) files: Vec<FileEntry>,
    pub(crate) cells: u64,
    pub(crate) limits: Limits,
    ghost sound: { IsSoundHeap (parts strings
        lists.shelf sets.shelf tables.shelf records.shelf coexps.items files.items cells limits) } by { IsSound-prop
            (parts strings lists.shelf sets.shelf tables.shelf records.shelf coexps.items files.items cells limits) },
}

impl Heap {
    ghost use Rattle.std.specs.Prelude.{◌≡◌, IfOk};
    ghost use Rattle.icn_value.specs.Limited.{limits_of};
    ghost use Rattle.icn_heap.specs.Heaps.{heap_of, empty_heap};

    /// A heap without strings, structures and opened files, but for `&main`, which is co-expression 0. The error is want of memory.
    #[tactic(auto, unfolding(crate::specs::Heaps::heap_of))]
    pub fn new(alloc: Global, limits: Limits) -> Result<Heap, AllocError>
        ensures { IfOk result (λ heap. heap_of heap ≡ empty_heap (limits_of limits)) }
    {
        let mut coexps = Vec::new(alloc);
        add_count(&mut coexps)?;
        Ok(Heap {
            alloc,
            strings: Region::new(alloc, limits.strings),
            lists: Shelf::new(alloc),
            sets: Shelf::new(alloc),
            tables: Shelf::new(alloc),
            records: RecordShelf::new(alloc),
            coexps,
            files: Vec::new(alloc),
            cells: 0,
            limits,
        })
    }
}
