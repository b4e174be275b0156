// Ranges of a region as spans, and its refusals as those of a heap.
ghost use Rattle.std.specs.Prelude.{◌≡◌};
ghost use Rattle.icn_heap.specs.Extents.{range_of};
ghost use Rattle.icn_heap.specs.RegionRefusals.{strings_full};

use icn_strings::ByteRange;
use icn_value::{Full, Span};

/// A range of the region as the span that stands for it.
pub fn span_of(range: ByteRange) -> Span
    ensures { range_of result ≡ range }
{
    Span {
        start: range.start,
        len: range.len,
    }
}

/// The range of the region that a span stands for.
pub fn as_range(span: Span) -> ByteRange
    ensures { result ≡ range_of span }
{
    ByteRange {
        start: span.start,
        len: span.len,
    }
}

/// What a region refuses, as a heap says it: the limit of strings, or want of memory.
pub fn full_of(full: icn_strings::RegionFull) -> Full
    ensures { result ≡ strings_full full }
{
    match full {
        icn_strings::RegionFull::Strings { sum, limit } => Full::Strings { sum, limit },
        icn_strings::RegionFull::NoMemory => Full::NoMemory,
    }
}
