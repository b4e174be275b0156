// Texts that are made, and charged.
ghost use Rattle.std.specs.Prelude.{◌≡◌, ◌+◌, ◌<◌, ◌++◌, ◌∷◌, [], length, Err, IfErr, IfOk, None, OnErr};
ghost use Rattle.std.specs.List.{All};
ghost use Rattle.icn_strings.specs.Pieces.{IsPieceIn, made_of};
ghost use Rattle.icn_value.specs.Store.{Outside};
ghost use Rattle.icn_convert.specs.TextCharges.{MakesNoText};
ghost use Rattle.icn_defs.specs.Rows.{costs_bytes, costs_text, costs_texts};
ghost use Rattle.icn_heap.specs.Extents.{IsLive, IsText, text_in, value_in};
ghost use Rattle.icn_heap.specs.Heaps.{extent_of, heap_of};
ghost use Rattle.icn_vars.specs.declared.stop.Stop.TheVariants.{Error as StopError};
ghost use Rattle.icn_vars.specs.Stops.{IsLiveStop};
ghost use Rattle.icn_vars.specs.Worlds.{KeepsLive, setting_of};
ghost use Rattle.icn_args.specs.RowWords.{HasText, IsPassed, the_text};

use icn_convert::to_text;
use icn_strings::StringPiece;
use icn_value::{Span, Val};
use icn_vars::{Locals, Stop, World};

/// The text of a value that has one, as `check_text` finds. A text that is made is charged. The errors are 306 and want of memory,
/// and there is none where no text is made.
#[tactic(auto, using(icn_vars::proofs::GrowingWorlds::grows))]
pub fn text_of<L: Locals>(w: &mut World, l: &L, val: Val) -> Result<Span, Stop>
    requires locals { All (IsLive (extent_of w.old.heap)) (L.items l.now) }
    requires live { IsLive (extent_of w.old.heap) val }
    requires has { HasText (value_in (extent_of w.old.heap) val) }
    ensures live { IfOk result (IsText (extent_of w.new.heap)) }
    ensures text { IfOk result
        (λ span. text_in (extent_of w.new.heap) span ≡ the_text (value_in (extent_of w.old.heap) val)) }
    ensures stops { IfErr result (IsLiveStop (extent_of w.new.heap)) }
    ensures step { (outside : Outside)
        → IsPassed (extent_of w.new.heap) (costs_text (value_in (extent_of w.old.heap) val))
        (setting_of outside w.old (L.items l.now)) (setting_of outside w.new (L.items l.now)) result }
    ensures held { MakesNoText (value_in (extent_of w.old.heap) val) → OnErr result ⊥ }
    ensures kept { KeepsLive w.old (L.items l.now) w.new (L.items l.now) }
{
    match to_text(&mut w.heap, val)? {
        Some(span) => Ok(span),
        None => unreachable!(),
    }
}

/// The texts of two values that have one, as `check_text` finds; those that are made are charged, the first one's first. The errors
/// are 306 and want of memory.
pub fn texts_of<L: Locals>(w: &mut World, l: &L, a: Val, b: Val) -> Result<(Span, Span), Stop>
    requires locals { All (IsLive (extent_of w.old.heap)) (L.items l.now) }
    requires first { IsLive (extent_of w.old.heap) a }
    requires second { IsLive (extent_of w.old.heap) b }
    requires first_has { HasText (value_in (extent_of w.old.heap) a) }
    requires second_has { HasText (value_in (extent_of w.old.heap) b) }
    ensures first_live { IfOk result (λ two. IsText (extent_of w.new.heap) two.0) }
    ensures second_live { IfOk result (λ two. IsText (extent_of w.new.heap) two.1) }
    ensures first_text { IfOk result
        (λ two. text_in (extent_of w.new.heap) two.0 ≡ the_text (value_in (extent_of w.old.heap) a)) }
    ensures second_text { IfOk result
        (λ two. text_in (extent_of w.new.heap) two.1 ≡ the_text (value_in (extent_of w.old.heap) b)) }
    ensures stops { IfErr result (IsLiveStop (extent_of w.new.heap)) }
    ensures step { (outside : Outside) → IsPassed (extent_of w.new.heap)
        (costs_texts (value_in (extent_of w.old.heap) a ∷ value_in (extent_of w.old.heap) b ∷ []))
        (setting_of outside w.old (L.items l.now)) (setting_of outside w.new (L.items l.now)) result }
    ensures kept { KeepsLive w.old (L.items l.now) w.new (L.items l.now) }
{
    let first = text_of(w, l, a)?;
    let second = text_of(w, l, b)?;
    Ok((first, second))
}

/// A new text of these bytes, which is charged. The errors are 306 and want of memory.
#[tactic(auto, using(icn_vars::proofs::GrowingWorlds::grows))]
pub fn build<L: Locals>(w: &mut World, l: &L, bytes: &[u8]) -> Result<Span, Stop>
    requires locals { All (IsLive (extent_of w.old.heap)) (L.items l.now) }
    ensures live { IfOk result (IsText (extent_of w.new.heap)) }
    ensures text { IfOk result (λ span. text_in (extent_of w.new.heap) span ≡ bytes.now) }
    ensures stops { IfErr result (IsLiveStop (extent_of w.new.heap)) }
    ensures step { (outside : Outside) → IsPassed (extent_of w.new.heap) (costs_bytes (length bytes.now))
        (setting_of outside w.old (L.items l.now)) (setting_of outside w.new (L.items l.now)) result }
    ensures kept { KeepsLive w.old (L.items l.now) w.new (L.items l.now) }
{
    Ok(w.heap.build(bytes)?)
}

/// A new text of some pieces, one behind the other, which is charged. The errors are 306, also where memory is wanting, and want of
/// memory.
#[tactic(auto, using(icn_vars::proofs::GrowingWorlds::grows))]
pub fn build_of<L: Locals>(w: &mut World, l: &L, pieces: &[StringPiece]) -> Result<Span, Stop>
    requires locals { All (IsLive (extent_of w.old.heap)) (L.items l.now) }
    requires pieces { All (IsPieceIn (extent_of w.old.heap).strings) pieces.now }
    ensures live { IfOk result (IsText (extent_of w.new.heap)) }
    ensures text { IfOk result
        (λ span. text_in (extent_of w.new.heap) span ≡ made_of (extent_of w.old.heap).strings pieces.now) }
    ensures stops { IfErr result (IsLiveStop (extent_of w.new.heap)) }
    ensures limits { (heap_of w.old.heap).bounds.strings
        < (heap_of w.old.heap).strings + length (made_of (extent_of w.old.heap).strings pieces.now)
        → result ≡ Err (StopError 306 None) }
    ensures step { (outside : Outside) → IsPassed (extent_of w.new.heap)
        (costs_bytes (length (made_of (extent_of w.old.heap).strings pieces.now)))
        (setting_of outside w.old (L.items l.now)) (setting_of outside w.new (L.items l.now)) result }
    ensures kept { KeepsLive w.old (L.items l.now) w.new (L.items l.now) }
{
    Ok(w.heap.build_of(pieces)?)
}

/// The text of the bytes of one and then of another, which is charged whole. The errors are 306 and want of memory.
#[tactic(auto, using(icn_vars::proofs::GrowingWorlds::grows))]
pub fn join<L: Locals>(w: &mut World, l: &L, a: Span, b: Span) -> Result<Span, Stop>
    requires locals { All (IsLive (extent_of w.old.heap)) (L.items l.now) }
    requires first { IsText (extent_of w.old.heap) a }
    requires second { IsText (extent_of w.old.heap) b }
    ensures live { IfOk result (IsText (extent_of w.new.heap)) }
    ensures text { IfOk result (λ span. text_in (extent_of w.new.heap) span ≡ text_in (extent_of w.old.heap) a
        ++ text_in (extent_of w.old.heap) b) }
    ensures stops { IfErr result (IsLiveStop (extent_of w.new.heap)) }
    ensures step { (outside : Outside) → IsPassed (extent_of w.new.heap)
        (costs_bytes (length (text_in (extent_of w.old.heap) a ++ text_in (extent_of w.old.heap) b)))
        (setting_of outside w.old (L.items l.now)) (setting_of outside w.new (L.items l.now)) result }
    ensures kept { KeepsLive w.old (L.items l.now) w.new (L.items l.now) }
{
    Ok(w.heap.join(a, b)?)
}
