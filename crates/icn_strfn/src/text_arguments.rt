// Arguments that are texts, and what stands for those that are null.
ghost use Rattle.std.specs.Prelude.{◌≡◌, ◌∷◌, [], IfErr, IfOk, MatchBool, None, OnErr, length, ⊤};
ghost use Rattle.std.specs.List.{All};
ghost use Rattle.icn_value.specs.Store.{Outside};
ghost use Rattle.icn_defs.specs.Conversions.{text_of};
ghost use Rattle.icn_defs.specs.Rows.{costs_text, costs_texts};
ghost use Rattle.icn_convert.specs.TextCharges.{MakesNoText};
ghost use Rattle.icn_heap.specs.Extents.{Extent, IsLive, IsText, text_in, value_in};
ghost use Rattle.icn_heap.specs.Heaps.{extent_of};
ghost use Rattle.icn_vars.specs.Stops.{IsLiveStop};
ghost use Rattle.icn_vars.specs.Worlds.{KeepsLive, setting_of};
ghost use Rattle.icn_args.specs.RowWords.{HasText, IsPassed, the_text};
ghost use Rattle.icn_strfn.specs.TextArguments.{IsArgument, argument_bytes, default_bytes, or_default};

use icn_args::text_of;
use icn_heap::Heap;
use icn_text::decimal;
use icn_value::{Span, Val};
use icn_vars::{Locals, Stop, World};

// A text that stands for an argument that is null.
#[derive(Clone, Copy, Debug, PartialEq, Eq)]
pub enum DefaultText {
    // A blank.
    Blank,
    // The capital letters.
    Upper,
    // The small letters.
    Lower,
}

// A text that is an argument.
#[derive(Clone, Copy, Debug, PartialEq, Eq)]
pub enum TextArgument {
    // A text of the heap.
    Held(Span),
    // The default.
    Missing(DefaultText),
}

impl DefaultText {
    /// The text that stands for an argument that is null: a blank, the upper-case or the lower-case letters.
    pub fn bytes(self) -> &'static [u8]
        ensures { result.now ≡ default_bytes self }
    {
        match self {
            DefaultText::Blank => b" ",
            DefaultText::Upper => b"ABCDEFGHIJKLMNOPQRSTUVWXYZ",
            DefaultText::Lower => b"abcdefghijklmnopqrstuvwxyz",
        }
    }
}

impl TextArgument {
    /// The bytes of the argument, or of what stands for it.
    pub fn bytes(self, heap: &Heap) -> &[u8]
        requires { IsArgument (extent_of heap.now) self }
        ensures { result.now ≡ argument_bytes (extent_of heap.now) self }
    {
        match self {
            TextArgument::Held(span) => heap.bytes(span),
            TextArgument::Missing(default) => default.bytes(),
        }
    }
}

/// Whether a value has no text.
pub fn lacks_text(val: Val) -> bool
    ensures { (all : Extent)
        → MatchBool result (text_of (value_in all val) ≡ None) (HasText (value_in all val)) }
{
    match val {
        Val::Integer(_) | Val::Text(_) | Val::Chars(_) => false,
        _ => true,
    }
}

/// Whether a value that is not null has no text.
pub fn lacks_argument(val: Val, default: DefaultText) -> bool
    ensures text { (all : Extent) → MatchBool result (text_of (or_default default (value_in all val)) ≡ None)
        (HasText (or_default default (value_in all val))) }
    ensures value { (all : Extent)
        → MatchBool result (or_default default (value_in all val) ≡ value_in all val) ⊤ }
{
    match val {
        Val::Null => false,
        _ => lacks_text(val),
    }
}

/// How long the text of a value is, which is not made for this.
pub fn text_len(heap: &Heap, val: Val) -> usize
    requires { IsLive (extent_of heap.now) val }
    ensures { result ≡ length (the_text (value_in (extent_of heap.now) val)) }
{
    match val {
        Val::Integer(n) => decimal(n).as_bytes().len(),
        Val::Text(span) => heap.bytes(span).len(),
        Val::Chars(cset) => usize::from(cset.size()),
        _ => 0,
    }
}

/// How long the text of an argument is.
pub fn argument_len(heap: &Heap, val: Val, default: DefaultText) -> usize
    requires { IsLive (extent_of heap.now) val }
    ensures { result ≡ length (the_text (or_default default (value_in (extent_of heap.now) val))) }
{
    match val {
        Val::Null => default.bytes().len(),
        _ => text_len(heap, val),
    }
}

/// The text of an argument that has one. A text that is made is charged. The errors are 306 and want of memory, and there is none
/// where no text is made.
#[tactic(auto, using(icn_vars::proofs::KeptItems::keeps_items_refl))]
pub fn text_argument<L: Locals>(
    w: &mut World,
    l: &L,
    val: Val,
    default: DefaultText,
) -> Result<TextArgument, Stop>
    requires locals { All (IsLive (extent_of w.old.heap)) (L.items l.now) }
    requires live { IsLive (extent_of w.old.heap) val }
    requires has { HasText (or_default default (value_in (extent_of w.old.heap) val)) }
    ensures live { IfOk result (IsArgument (extent_of w.new.heap)) }
    ensures text { IfOk result (λ text. argument_bytes (extent_of w.new.heap) text
        ≡ the_text (or_default default (value_in (extent_of w.old.heap) val))) }
    ensures stops { IfErr result (IsLiveStop (extent_of w.new.heap)) }
    ensures step { (outside : Outside)
        → IsPassed (extent_of w.new.heap) (costs_text (value_in (extent_of w.old.heap) val))
        (setting_of outside w.old (L.items l.now)) (setting_of outside w.new (L.items l.now)) result }
    ensures held { MakesNoText (value_in (extent_of w.old.heap) val) → OnErr result ⊥ }
    ensures kept { KeepsLive w.old (L.items l.now) w.new (L.items l.now) }
{
    match val {
        Val::Null => Ok(TextArgument::Missing(default)),
        _ => {
            let span = text_of(w, l, val)?;
            Ok(TextArgument::Held(span))
        }
    }
}

/// The text of a value and that of an argument, which both have one. The errors are 306 and want of memory, and there is none where
/// no text is made.
pub fn two_texts<L: Locals>(
    w: &mut World,
    l: &L,
    val: Val,
    other: Val,
    default: DefaultText,
) -> Result<(Span, TextArgument), Stop>
    requires locals { All (IsLive (extent_of w.old.heap)) (L.items l.now) }
    requires first { IsLive (extent_of w.old.heap) val }
    requires second { IsLive (extent_of w.old.heap) other }
    requires first_has { HasText (value_in (extent_of w.old.heap) val) }
    requires second_has { HasText (or_default default (value_in (extent_of w.old.heap) other)) }
    ensures first_live { IfOk result (λ two. IsText (extent_of w.new.heap) two.0) }
    ensures second_live { IfOk result (λ two. IsArgument (extent_of w.new.heap) two.1) }
    ensures first_text { IfOk result
        (λ two. text_in (extent_of w.new.heap) two.0 ≡ the_text (value_in (extent_of w.old.heap) val)) }
    ensures second_text { IfOk result (λ two. argument_bytes (extent_of w.new.heap) two.1
        ≡ the_text (or_default default (value_in (extent_of w.old.heap) other))) }
    ensures stops { IfErr result (IsLiveStop (extent_of w.new.heap)) }
    ensures step { (outside : Outside) → IsPassed (extent_of w.new.heap)
        (costs_texts (value_in (extent_of w.old.heap) val ∷ value_in (extent_of w.old.heap) other ∷ []))
        (setting_of outside w.old (L.items l.now)) (setting_of outside w.new (L.items l.now)) result }
    ensures held { MakesNoText (value_in (extent_of w.old.heap) val)
        → MakesNoText (value_in (extent_of w.old.heap) other) → OnErr result ⊥ }
    ensures kept { KeepsLive w.old (L.items l.now) w.new (L.items l.now) }
{
    let text = text_of(w, l, val)?;
    let argument = text_argument(w, l, other, default)?;
    Ok((text, argument))
}
