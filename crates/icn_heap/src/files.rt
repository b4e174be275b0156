// The files that a program opened.
use crate::file_entries::{FileEntry, add_file, added_at, file_ref, part_at, read_at, shut_at};
use crate::heap::Heap;
use crate::spans::{full_of, span_of};
use icn_value::{File, FileMode, Full, Span, Val};
use std::alloc::AllocError;

impl Heap {
    ghost use Rattle.std.specs.Prelude.{◌≡◌, ◌+◌, ◌<◌, ◌≤◌, ◌^◌, drop, length, take, MatchResult, IfOk, OnOk, OnErr, Ok, string_bytes};
    ghost use Rattle.icn_value.specs.declared.val.File.TheVariants.{Opened};
    ghost use Rattle.icn_value.specs.declared.val.Val.TheVariants.{Std};
    ghost use Rattle.icn_value.specs.Store.{file_at, with_opened};
    ghost use Rattle.icn_value.specs.Changes.{added_to, charged_strings, made_file, next_file, shut, LimitsFirst, Refuses};
    ghost use Rattle.icn_heap.specs.Extents.{IsLive, IsText, text_in, value_in, KeepsValues};
    ghost use Rattle.icn_heap.specs.Heaps.{extent_of, heap_of};

    /// Opens a file under a name, which holds this and of which nothing is read yet. It costs a cell. The error is the limit that
    /// refuses the charge, or else want of memory; the heap is then as it was, and name and content are let go.
    #[tactic(auto, unfolding(crate::specs::Heaps::extent_of, crate::specs::Heaps::heap_of))]
    pub fn open_file(&mut self, name: String, mode: FileMode, content: Vec<u8>) -> Result<Val, Full>
        ensures live { IfOk result (IsLive (extent_of self.new)) }
        ensures value { IfOk result (λ val. value_in (extent_of self.new) val ≡ next_file (heap_of self.old)) }
        ensures step { MatchResult result
            (λ _. made_file (heap_of self.old) (string_bytes name) mode content.items
            ≡ Ok (heap_of self.new))
            (Refuses (made_file (heap_of self.old) (string_bytes name) mode content.items)) }
        ensures limits { LimitsFirst
            (made_file (heap_of self.old) (string_bytes name) mode content.items) result }
        ensures kept { KeepsValues (extent_of self.old) (extent_of self.new) }
        ensures unchanged { OnErr result (heap_of self.new ≡ heap_of self.old) }
    {
        let sum = self.charged_sum(0)?;
        let number = self.files.len() as u32;
        add_file(&mut self.files, name, mode, content)?;
        self.cells = sum;
        Ok(Val::Std(File::Opened(number)))
    }

    /// How many files were opened, so few that each has a number of 32 bits. It takes no memory.
    #[tactic(auto, unfolding(crate::specs::Heaps::heap_of))]
    pub fn opened(&self) -> u64
        ensures count { result ≡ length (heap_of self.now).files }
        ensures few { result < 2 ^ 32 }
    {
        self.files.len() as u64
    }

    /// An opened file, by its number from 0 on: its name, how it was opened, what it holds, how much of it was read, and whether
    /// it was closed. It takes no memory.
    #[tactic(auto, unfolding(crate::specs::Heaps::extent_of, crate::specs::Heaps::heap_of))]
    pub fn file(&self, number: u32) -> &FileEntry
        requires { IsLive (extent_of self.now) (Std (Opened number)) }
        ensures file { result.now ≡ file_at (heap_of self.now) number }
        ensures within { (file_at (heap_of self.now) number).place
            ≤ length (file_at (heap_of self.now) number).content }
    {
        file_ref(&self.files, number)
    }

    /// Makes a text of a part of what an opened file holds, from a place on, and charges it. The error is the limit that refuses the
    /// charge, or else want of memory; the heap is then as it was.
    #[tactic(auto, unfolding(crate::specs::Heaps::extent_of, crate::specs::Heaps::heap_of))]
    pub fn build_of_file(&mut self, number: u32, from: u64, len: u64) -> Result<Span, Full>
        requires file { IsLive (extent_of self.old) (Std (Opened number)) }
        requires within { from + len ≤ length (file_at (heap_of self.old) number).content }
        ensures live { IfOk result (IsText (extent_of self.new)) }
        ensures bytes { IfOk result (λ span. text_in (extent_of self.new) span
            ≡ take len (drop from (file_at (heap_of self.old) number).content)) }
        ensures step { MatchResult result (λ _. charged_strings (heap_of self.old) len ≡ Ok (heap_of self.new))
            (Refuses (charged_strings (heap_of self.old) len)) }
        ensures limits { LimitsFirst (charged_strings (heap_of self.old) len) result }
        ensures kept { KeepsValues (extent_of self.old) (extent_of self.new) }
        ensures unchanged { OnErr result (heap_of self.new ≡ heap_of self.old) }
    {
        let bytes = part_at(&self.files, number, from, len);
        match self.strings.build(bytes) {
            Ok(range) => Ok(span_of(range)),
            Err(full) => Err(full_of(full)),
        }
    }

    /// Adds bytes behind what an opened file holds, without a charge. The error is want of memory, and the heap is as it was
    /// then.
    #[tactic(auto, unfolding(crate::specs::Heaps::extent_of, crate::specs::Heaps::heap_of))]
    pub fn add_to_file(&mut self, number: u32, bytes: &[u8]) -> Result<(), AllocError>
        requires { IsLive (extent_of self.old) (Std (Opened number)) }
        ensures step { OnOk result (heap_of self.new ≡ added_to number bytes.now (heap_of self.old)) }
        ensures kept { KeepsValues (extent_of self.old) (extent_of self.new) }
        ensures unchanged { OnErr result (heap_of self.new ≡ heap_of self.old) }
    {
        added_at(&mut self.files, number, bytes)?;
        Ok(())
    }

    /// Has so many bytes of an opened file read. It takes no memory.
    #[tactic(auto, unfolding(crate::specs::Heaps::extent_of, crate::specs::Heaps::heap_of))]
    pub fn read_to(&mut self, number: u32, place: u64)
        requires file { IsLive (extent_of self.old) (Std (Opened number)) }
        requires within { place ≤ length (file_at (heap_of self.old) number).content }
        ensures step { heap_of self.new
            ≡ with_opened number (record (file_at (heap_of self.old) number) { place = place })
            (heap_of self.old) }
        ensures kept { KeepsValues (extent_of self.old) (extent_of self.new) }
    {
        read_at(&mut self.files, number, place);
    }

    /// Closes an opened file, and lets go of what it holds. It takes no memory.
    #[tactic(auto, unfolding(crate::specs::Heaps::extent_of, crate::specs::Heaps::heap_of))]
    pub fn shut(&mut self, number: u32)
        requires { IsLive (extent_of self.old) (Std (Opened number)) }
        ensures step { heap_of self.new ≡ shut number (heap_of self.old) }
        ensures kept { KeepsValues (extent_of self.old) (extent_of self.new) }
    {
        shut_at(self.alloc, &mut self.files, number);
    }
}
