// The texts of a heap.
use crate::heap::Heap;
use crate::spans::{as_range, full_of, span_of};
use icn_strings::{ByteRange, StringPiece, end_of_range, length_of_bytes, part_of_range};
use icn_value::{Full, Span};
use std::alloc::AllocError;

impl Heap {
    ghost use Rattle.std.specs.Prelude.{◌≡◌, ◌+◌, ◌≤◌, ◌++◌, take, drop, length, MatchResult, IfOk, OnErr, Ok};
    ghost use Rattle.std.specs.List.{All};
    ghost use Rattle.icn_strings.specs.Pieces.{IsPieceIn, made_of};
    ghost use Rattle.icn_value.specs.Changes.{charged_strings, Refuses, LimitsFirst};
    ghost use Rattle.icn_heap.specs.Extents.{IsText, text_in, KeepsValues};
    ghost use Rattle.icn_heap.specs.Heaps.{extent_of, heap_of};

    /// Makes a text of these bytes, and charges them. The error is the limit that refuses the charge, or else want of
    /// memory; the heap is then as it was.
    pub fn build(&mut self, bytes: &[u8]) -> Result<Span, Full>
        ensures live { IfOk result (IsText (extent_of self.new)) }
        ensures bytes { IfOk result (λ span. text_in (extent_of self.new) span ≡ bytes.now) }
        ensures step { MatchResult result (λ _. charged_strings (heap_of self.old) (length bytes.now)
            ≡ Ok (heap_of self.new)) (Refuses (charged_strings (heap_of self.old) (length bytes.now))) }
        ensures limits { LimitsFirst (charged_strings (heap_of self.old) (length bytes.now)) result }
        ensures kept { KeepsValues (extent_of self.old) (extent_of self.new) }
        ensures unchanged { OnErr result (heap_of self.new ≡ heap_of self.old) }
    {
        match self.strings.build(bytes) {
            Ok(range) => Ok(span_of(range)),
            Err(full) => Err(full_of(full)),
        }
    }

    /// Makes a text of some pieces, one behind the other, and charges it. The error is the limit that refuses the charge, or
    /// else want of memory; the heap is then as it was.
    #[tactic(auto, unfolding(crate::specs::Heaps::extent_of))]
    pub fn build_of(&mut self, pieces: &[StringPiece]) -> Result<Span, Full>
        requires { All (IsPieceIn (extent_of self.old).strings) pieces.now }
        ensures live { IfOk result (IsText (extent_of self.new)) }
        ensures bytes { IfOk result
            (λ span. text_in (extent_of self.new) span ≡ made_of (extent_of self.old).strings pieces.now) }
        ensures step { MatchResult result (λ _. charged_strings (heap_of self.old)
            (length (made_of (extent_of self.old).strings pieces.now)) ≡ Ok (heap_of self.new))
            (Refuses (charged_strings (heap_of self.old)
            (length (made_of (extent_of self.old).strings pieces.now)))) }
        ensures limits { LimitsFirst (charged_strings (heap_of self.old)
            (length (made_of (extent_of self.old).strings pieces.now))) result }
        ensures kept { KeepsValues (extent_of self.old) (extent_of self.new) }
        ensures unchanged { OnErr result (heap_of self.new ≡ heap_of self.old) }
    {
        match self.strings.build_of(pieces) {
            Ok(range) => Ok(span_of(range)),
            Err(full) => Err(full_of(full)),
        }
    }

    /// Makes a text of the bytes of `a` and then those of `b`, and charges both. The error is the limit that refuses the
    /// charge, or else want of memory; the heap is then as it was.
    #[tactic(auto, unfolding(crate::specs::Heaps::extent_of))]
    pub fn join(&mut self, a: Span, b: Span) -> Result<Span, Full>
        requires first { IsText (extent_of self.old) a }
        requires second { IsText (extent_of self.old) b }
        ensures live { IfOk result (IsText (extent_of self.new)) }
        ensures bytes { IfOk result (λ span. text_in (extent_of self.new) span
            ≡ text_in (extent_of self.old) a ++ text_in (extent_of self.old) b) }
        ensures step { MatchResult result (λ _. charged_strings (heap_of self.old)
            (length (text_in (extent_of self.old) a ++ text_in (extent_of self.old) b))
            ≡ Ok (heap_of self.new)) (Refuses (charged_strings (heap_of self.old)
            (length (text_in (extent_of self.old) a ++ text_in (extent_of self.old) b)))) }
        ensures limits { LimitsFirst (charged_strings (heap_of self.old)
            (length (text_in (extent_of self.old) a ++ text_in (extent_of self.old) b))) result }
        ensures kept { KeepsValues (extent_of self.old) (extent_of self.new) }
        ensures unchanged { OnErr result (heap_of self.new ≡ heap_of self.old) }
    {
        let first = as_range(a);
        let second = as_range(b);
        length_of_bytes(&self.strings, first);
        length_of_bytes(&self.strings, second);
        match self.strings.join(first, second) {
            Ok(range) => Ok(span_of(range)),
            Err(full) => Err(full_of(full)),
        }
    }

    /// How many bytes more may be charged. It takes no memory.
    #[tactic(auto, unfolding(crate::specs::Heaps::heap_of))]
    pub fn string_room(&self) -> u64
        ensures { (heap_of self.now).strings + result ≡ (heap_of self.now).bounds.strings }
    {
        self.strings.room()
    }

    /// Makes a text of these bytes without a charge, for literals and for results that cost nothing. The error is want of memory.
    #[tactic(auto, unfolding(crate::specs::Heaps::extent_of))]
    pub fn hold(&mut self, bytes: &[u8]) -> Result<Span, AllocError>
        ensures live { IfOk result (IsText (extent_of self.new)) }
        ensures bytes { IfOk result (λ span. text_in (extent_of self.new) span ≡ bytes.now) }
        ensures kept { KeepsValues (extent_of self.old) (extent_of self.new) }
        ensures unchanged { heap_of self.new ≡ heap_of self.old }
    {
        Ok(span_of(self.strings.hold(bytes)?))
    }

    /// The part of a text from a place on, counted from 0. It is not charged, and takes no memory.
    #[tactic(auto, unfolding(crate::specs::Heaps::extent_of, crate::specs::Extents::text_in))]
    pub fn part(&self, span: Span, from: u64, len: u64) -> Span
        requires of { IsText (extent_of self.now) span }
        requires within { from + len ≤ length (text_in (extent_of self.now) span) }
        ensures live { IsText (extent_of self.now) result }
        ensures bytes { text_in (extent_of self.now) result
            ≡ take len (drop from (text_in (extent_of self.now) span)) }
    {
        let whole = as_range(span);
        length_of_bytes(&self.strings, whole);
        end_of_range(&self.strings, whole);
        let part = ByteRange {
            start: whole.start + from,
            len,
        };
        part_of_range(&self.strings, part, whole);
        span_of(part)
    }

    /// The bytes of a text. It takes no memory.
    #[tactic(auto, unfolding(crate::specs::Extents::text_in, crate::specs::Heaps::extent_of))]
    pub fn bytes(&self, span: Span) -> &[u8]
        requires { IsText (extent_of self.now) span }
        ensures { result.now ≡ text_in (extent_of self.now) span }
    {
        self.strings.bytes(as_range(span))
    }
}
