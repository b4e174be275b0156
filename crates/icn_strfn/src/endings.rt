// How rows that give a text end.
ghost use Rattle.std.specs.Prelude.{◌≡◌, pos};
ghost use Rattle.std.specs.List.{All};
ghost use Rattle.icn_strings.specs.Pieces.{IsPieceIn, made_of};
ghost use Rattle.icn_value.specs.Values.{Text};
ghost use Rattle.icn_value.specs.declared.val.Val.TheVariants.{Integer as IntegerVal, Text as TextVal};
ghost use Rattle.icn_defs.specs.Rows.{builds, gives_value};
ghost use Rattle.icn_heap.specs.Extents.{IsLive};
ghost use Rattle.icn_heap.specs.Heaps.{extent_of, heap_of};
ghost use Rattle.icn_vars.specs.Outcomes.{IsLiveAnswer, answer_of};
ghost use Rattle.icn_vars.specs.Worlds.{KeepsLive, reach_of};
ghost use Rattle.icn_args.specs.RowWords.{Answers};
ghost use Rattle.icn_strfn.specs.Stopping.{RefusesFirst};

use icn_args::{build, build_of};
use icn_strings::StringPiece;
use icn_value::{Span, Val};
use icn_vars::{Halt, Locals, ValueOutcome, World};

/// A new text of these bytes, which is charged. The errors are 306 and want of memory.
pub fn build_text<L: Locals>(w: &mut World, l: &L, bytes: &[u8]) -> Result<ValueOutcome, Halt>
    requires { All (IsLive (extent_of w.old.heap)) (L.items l.now) }
    ensures row { Answers w.old (L.items l.now) w.new (L.items l.now) (builds bytes.now) (answer_of result) }
    ensures live { IsLiveAnswer (reach_of w.new (L.items l.now)) (answer_of result) }
    ensures kept { KeepsLive w.old (L.items l.now) w.new (L.items l.now) }
{
    let span = build(w, l, bytes)?;
    Ok(text(span))
}

/// A new text of some pieces, one behind the other, which is charged. The errors are 306, before it is made, and want of memory.
pub fn build_pieces<L: Locals>(
    w: &mut World,
    l: &L,
    pieces: &[StringPiece],
) -> Result<ValueOutcome, Halt>
    requires locals { All (IsLive (extent_of w.old.heap)) (L.items l.now) }
    requires pieces { All (IsPieceIn (extent_of w.old.heap).strings) pieces.now }
    ensures row { Answers w.old (L.items l.now) w.new (L.items l.now)
        (builds (made_of (extent_of w.old.heap).strings pieces.now)) (answer_of result) }
    ensures limits { RefusesFirst (heap_of w.old.heap)
        (made_of (extent_of w.old.heap).strings pieces.now) result }
    ensures live { IsLiveAnswer (reach_of w.new (L.items l.now)) (answer_of result) }
    ensures kept { KeepsLive w.old (L.items l.now) w.new (L.items l.now) }
{
    let span = build_of(w, l, pieces)?;
    Ok(text(span))
}

/// A text of these bytes, which costs nothing. The error is want of memory.
#[tactic(auto, using(icn_vars::proofs::GrowingWorlds::grows, icn_vars::proofs::GrowingWorlds::locals_grow))]
pub fn hold_text<L: Locals>(w: &mut World, l: &L, bytes: &[u8]) -> Result<ValueOutcome, Halt>
    requires { All (IsLive (extent_of w.old.heap)) (L.items l.now) }
    ensures row { Answers w.old (L.items l.now) w.new (L.items l.now) (gives_value (Text bytes.now))
        (answer_of result) }
    ensures live { IsLiveAnswer (reach_of w.new (L.items l.now)) (answer_of result) }
    ensures kept { KeepsLive w.old (L.items l.now) w.new (L.items l.now) }
{
    let span = w.heap.hold(bytes)?;
    Ok(text(span))
}

/// A byte as an integer.
pub fn byte_given(byte: u8) -> ValueOutcome
    ensures { result ≡ ValueOutcome.Gives (IntegerVal (pos byte)) }
{
    ValueOutcome::Gives(Val::Integer(i64::from(byte)))
}

/// The row gives this text.
pub fn text(span: Span) -> ValueOutcome
    ensures { result ≡ ValueOutcome.Gives (TextVal span) }
{
    ValueOutcome::Gives(Val::Text(span))
}
