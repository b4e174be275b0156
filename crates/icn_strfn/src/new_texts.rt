// New texts, which are written where they stay.
ghost use Rattle.std.specs.Prelude.{◌≡◌, ◌≤◌, ◌+◌, ◌++◌, drop, length, map, replicate, reverse, slice_index, take, IfOk, Ok};
ghost use Rattle.std.specs.List.{All, concat};
ghost use Rattle.icn_defs.specs.Rows.{builds};
ghost use Rattle.icn_defs.specs.Strings.{map_byte};
ghost use Rattle.icn_value.specs.Changes.{charged_strings};
ghost use Rattle.icn_heap.specs.Extents.{IsLive, IsText, KeepsValues, text_in};
ghost use Rattle.icn_heap.specs.Heaps.{extent_of, heap_of};
ghost use Rattle.icn_vars.specs.Outcomes.{IsLiveAnswer, answer_of};
ghost use Rattle.icn_vars.specs.Worlds.{KeepsLive, reach_of};
ghost use Rattle.icn_args.specs.RowWords.{Answers};
ghost use Rattle.icn_strfn.specs.Layouts.{blanks, laid_out};
ghost use Rattle.icn_strfn.specs.Stopping.{RefusesFirst};
ghost use Rattle.icn_strfn.specs.TextArguments.{IsArgument, argument_bytes, default_bytes};
ghost use Rattle.icn_strfn.specs.declared.text_arguments.DefaultText.TheVariants.{Blank};

use crate::endings::build_pieces;
use crate::layouts::{Layout, field_of};
use crate::mapping::{bytes_are_small, images};
use crate::origins::{filling, held};
use crate::text_arguments::{DefaultText, TextArgument};
use icn_heap::{Heap, length_of_text};
use icn_strings::StringPiece;
use icn_value::{Full, Span};
use icn_vars::{Halt, Locals, ValueOutcome, World};

/// A text from its end to its start, which is charged. The errors are 306, before it is made, and want of memory.
pub fn build_reversed<L: Locals>(w: &mut World, l: &L, span: Span) -> Result<ValueOutcome, Halt>
    requires locals { All (IsLive (extent_of w.old.heap)) (L.items l.now) }
    requires text { IsText (extent_of w.old.heap) span }
    ensures row { Answers w.old (L.items l.now) w.new (L.items l.now)
        (builds (reverse (text_in (extent_of w.old.heap) span))) (answer_of result) }
    ensures limits { RefusesFirst (heap_of w.old.heap) (reverse (text_in (extent_of w.old.heap) span))
        result }
    ensures live { IsLiveAnswer (reach_of w.new (L.items l.now)) (answer_of result) }
    ensures kept { KeepsLive w.old (L.items l.now) w.new (L.items l.now) }
{
    build_pieces(w, l, &[StringPiece::Reversed(held(span))])
}

/// A text so many times, which is charged. The errors are 306, before it is made, and want of memory.
pub fn build_repeated<L: Locals>(
    w: &mut World,
    l: &L,
    span: Span,
    count: u64,
) -> Result<ValueOutcome, Halt>
    requires locals { All (IsLive (extent_of w.old.heap)) (L.items l.now) }
    requires text { IsText (extent_of w.old.heap) span }
    ensures row { Answers w.old (L.items l.now) w.new (L.items l.now)
        (builds (concat (replicate count (text_in (extent_of w.old.heap) span)))) (answer_of result) }
    ensures limits { RefusesFirst (heap_of w.old.heap)
        (concat (replicate count (text_in (extent_of w.old.heap) span))) result }
    ensures live { IsLiveAnswer (reach_of w.new (L.items l.now)) (answer_of result) }
    ensures kept { KeepsLive w.old (L.items l.now) w.new (L.items l.now) }
{
    build_pieces(w, l, &[StringPiece::Copies(held(span), count)])
}

// The widest field that is laid out beside the heap.
const FEW: u64 = 64;

// Some bytes behind so many blanks, and blanks behind them.
fn among_blanks(before: u64, shown: &[u8]) -> [u8; 64]
    requires { before + length shown.now ≤ 64 }
    ensures { result ≡ take before (blanks 64)
        ++ (shown.now ++ drop (before + length shown.now) (blanks 64)) }
{
    let mut bytes = [b' '; 64];
    let from = before as usize;
    bytes[from..from + shown.len()].copy_from_slice(shown);
    bytes
}

// The first so many of some bytes.
fn front(bytes: &[u8; 64], count: u64) -> &[u8]
    requires { count ≤ 64 }
    ensures { result.now ≡ take count bytes.now }
{
    &bytes[..count as usize]
}

// A text in a field of at most so many bytes as are laid out beside the heap, which is filled with blanks and charged. The error is the
// limit that refuses the charge, or else want of memory.
fn few_in_field(heap: &mut Heap, layout: Layout, span: Span, width: u64) -> Result<Span, Full>
    requires text { IsText (extent_of heap.old) span }
    requires few { width ≤ 64 }
    ensures live { IfOk result (IsText (extent_of heap.new)) }
    ensures bytes { IfOk result (λ text. text_in (extent_of heap.new) text
        ≡ laid_out layout (text_in (extent_of heap.old) span) width (default_bytes Blank)) }
    ensures charged { IfOk result (λ text. charged_strings (heap_of heap.old)
        (length (laid_out layout (text_in (extent_of heap.old) span) width (default_bytes Blank)))
        ≡ Ok (heap_of heap.new)) }
    ensures kept { KeepsValues (extent_of heap.old) (extent_of heap.new) }
{
    length_of_text(heap, span);
    let field = field_of(layout, span.len, width);
    let shown = heap.part(span, field.from, field.len);
    let bytes = among_blanks(field.before, heap.bytes(shown));
    let text = heap.build(front(&bytes, width))?;
    Ok(text)
}

/// A text in a field of so many bytes, which is filled with blanks and charged. The error is the limit that refuses the charge, or else
/// want of memory.
pub fn text_in_field(heap: &mut Heap, layout: Layout, span: Span, width: u64) -> Result<Span, Full>
    requires { IsText (extent_of heap.old) span }
    ensures live { IfOk result (IsText (extent_of heap.new)) }
    ensures bytes { IfOk result (λ text. text_in (extent_of heap.new) text
        ≡ laid_out layout (text_in (extent_of heap.old) span) width (default_bytes Blank)) }
    ensures charged { IfOk result (λ text. charged_strings (heap_of heap.old)
        (length (laid_out layout (text_in (extent_of heap.old) span) width (default_bytes Blank)))
        ≡ Ok (heap_of heap.new)) }
    ensures kept { KeepsValues (extent_of heap.old) (extent_of heap.new) }
{
    if width <= FEW {
        return few_in_field(heap, layout, span, width);
    }
    length_of_text(heap, span);
    let field = field_of(layout, span.len, width);
    let shown = heap.part(span, field.from, field.len);
    let unit = filling(TextArgument::Missing(DefaultText::Blank));
    let text = heap.build_of(&[
        StringPiece::FilledLeft(unit, field.before),
        StringPiece::Copies(held(shown), 1),
        StringPiece::FilledRight(unit, field.behind),
    ])?;
    Ok(text)
}

/// A text in a field of so many bytes, which is charged. The errors are 306, before it is made, and want of memory.
pub fn build_laid_out<L: Locals>(
    w: &mut World,
    l: &L,
    layout: Layout,
    span: Span,
    width: u64,
    fill: TextArgument,
) -> Result<ValueOutcome, Halt>
    requires locals { All (IsLive (extent_of w.old.heap)) (L.items l.now) }
    requires text { IsText (extent_of w.old.heap) span }
    requires fill { IsArgument (extent_of w.old.heap) fill }
    ensures row { Answers w.old (L.items l.now) w.new (L.items l.now) (builds (laid_out layout
        (text_in (extent_of w.old.heap) span) width (argument_bytes (extent_of w.old.heap) fill))) (answer_of result) }
    ensures limits { RefusesFirst (heap_of w.old.heap) (laid_out layout
        (text_in (extent_of w.old.heap) span) width (argument_bytes (extent_of w.old.heap) fill)) result }
    ensures live { IsLiveAnswer (reach_of w.new (L.items l.now)) (answer_of result) }
    ensures kept { KeepsLive w.old (L.items l.now) w.new (L.items l.now) }
{
    length_of_text(&w.heap, span);
    let field = field_of(layout, span.len, width);
    let shown = w.heap.part(span, field.from, field.len);
    let unit = filling(fill);
    build_pieces(
        w,
        l,
        &[
            StringPiece::FilledLeft(unit, field.before),
            StringPiece::Copies(held(shown), 1),
            StringPiece::FilledRight(unit, field.behind),
        ],
    )
}

/// A text whose bytes become others, which is charged. The errors are 306, before it is made, and want of memory.
pub fn build_mapped<L: Locals>(
    w: &mut World,
    l: &L,
    span: Span,
    from: TextArgument,
    to: TextArgument,
) -> Result<ValueOutcome, Halt>
    requires locals { All (IsLive (extent_of w.old.heap)) (L.items l.now) }
    requires text { IsText (extent_of w.old.heap) span }
    requires from { IsArgument (extent_of w.old.heap) from }
    requires to { IsArgument (extent_of w.old.heap) to }
    ensures row { Answers w.old (L.items l.now) w.new (L.items l.now) (builds (map (map_byte
        (argument_bytes (extent_of w.old.heap) from) (argument_bytes (extent_of w.old.heap) to))
        (text_in (extent_of w.old.heap) span))) (answer_of result) }
    ensures limits { RefusesFirst (heap_of w.old.heap) (map (map_byte
        (argument_bytes (extent_of w.old.heap) from) (argument_bytes (extent_of w.old.heap) to))
        (text_in (extent_of w.old.heap) span)) result }
    ensures live { IsLiveAnswer (reach_of w.new (L.items l.now)) (answer_of result) }
    ensures kept { KeepsLive w.old (L.items l.now) w.new (L.items l.now) }
{
    bytes_are_small(w.heap.bytes(span));
    let table = images(from.bytes(&w.heap), to.bytes(&w.heap));
    build_by_table(w, l, span, &table)
}

// A text whose bytes become those of a table, which is charged. The errors are 306, before it is made, and want of memory.
fn build_by_table<L: Locals>(
    w: &mut World,
    l: &L,
    span: Span,
    table: &[u8; 256],
) -> Result<ValueOutcome, Halt>
    requires locals { All (IsLive (extent_of w.old.heap)) (L.items l.now) }
    requires text { IsText (extent_of w.old.heap) span }
    ensures row { Answers w.old (L.items l.now) w.new (L.items l.now)
        (builds (map (slice_index table.now) (text_in (extent_of w.old.heap) span))) (answer_of result) }
    ensures limits { RefusesFirst (heap_of w.old.heap)
        (map (slice_index table.now) (text_in (extent_of w.old.heap) span)) result }
    ensures live { IsLiveAnswer (reach_of w.new (L.items l.now)) (answer_of result) }
    ensures kept { KeepsLive w.old (L.items l.now) w.new (L.items l.now) }
{
    build_pieces(w, l, &[StringPiece::Mapped(held(span), table)])
}
