// Texts from which the bytes of new ones come.
ghost use Rattle.std.specs.Prelude.{◌≡◌, ◌<◌};
ghost use Rattle.icn_strings.specs.Pieces.{OriginIn, origin_bytes, origin_length};
ghost use Rattle.icn_defs.specs.Strings.{filling_text};
ghost use Rattle.icn_heap.specs.Extents.{Extent, IsText, text_in};
ghost use Rattle.icn_strfn.specs.TextArguments.{IsArgument, argument_bytes};

use crate::text_arguments::TextArgument;
use icn_heap::as_range;
use icn_strings::Origin;
use icn_value::Span;

/// The bytes of a text.
#[tactic(auto, unfolding(icn_heap::specs::Extents::text_in))]
pub fn held(span: Span) -> Origin<'static>
    ensures of { (all : Extent) → IsText all span → OriginIn all.strings result }
    ensures bytes { (all : Extent) → origin_bytes all.strings result ≡ text_in all span }
{
    Origin::Held(as_range(span))
}

/// The bytes that a field is filled with: an empty text counts as a blank.
pub fn filling(fill: TextArgument) -> Origin<'static>
    ensures of { (all : Extent) → IsArgument all fill → OriginIn all.strings result }
    ensures bytes { (all : Extent) → IsArgument all fill
        → origin_bytes all.strings result ≡ filling_text (argument_bytes all fill) }
    ensures some { 0 < origin_length result }
{
    match fill {
        TextArgument::Held(span) => text_filling(span),
        TextArgument::Missing(default) => Origin::Given(default.bytes()),
    }
}

// The bytes of a text that a field is filled with.
#[tactic(auto, unfolding(icn_heap::specs::Extents::text_in))]
fn text_filling(span: Span) -> Origin<'static>
    ensures of { (all : Extent) → IsText all span → OriginIn all.strings result }
    ensures bytes { (all : Extent) → IsText all span
        → origin_bytes all.strings result ≡ filling_text (text_in all span) }
    ensures some { 0 < origin_length result }
{
    if span.len == 0 {
        return Origin::Given(b" ");
    }
    Origin::Held(as_range(span))
}
