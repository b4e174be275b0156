// Matching in the subject.
ghost use Rattle.std.specs.Prelude.{◌≡◌};
ghost use Rattle.std.specs.List.{All};
ghost use Rattle.icn_value.specs.Store.{Outside};
ghost use Rattle.icn_defs.specs.Scanning.{tab_match_row};
ghost use Rattle.icn_heap.specs.Extents.{IsLive, IsText, text_in};
ghost use Rattle.icn_heap.specs.Heaps.{extent_of};
ghost use Rattle.icn_vars.specs.Outcomes.{IsLiveAnswer, IsLiveOutcome, outcome_in};
ghost use Rattle.icn_vars.specs.Worlds.{IsLiveOperand, KeepsLive, item_in, reach_of, setting_of};
ghost use Rattle.icn_args.specs.RowWords.{Answers};
ghost use Rattle.icn_ops.specs.Operands.{matches_here};

use crate::operands::one_text;
use icn_args::{stands, tab_to};
use icn_value::{Item, Span};
use icn_vars::{Halt, Locals, Outcome, World};

/// `=s`: the text, where it stands at the position in the subject, which then is behind it; or error 103, or 306 where the text that is
/// made for it passes its limit.
pub fn tab_match_row<L: Locals>(w: &mut World, l: &L, x: Item) -> Result<Outcome, Halt>
    requires live { IsLiveOperand w.old (L.items l.now) x }
    ensures row { Answers w.old (L.items l.now) w.new (L.items l.now)
        (tab_match_row (item_in (extent_of w.old.heap) x)) result }
    ensures live { IsLiveAnswer (reach_of w.new (L.items l.now)) result }
    ensures kept { KeepsLive w.old (L.items l.now) w.new (L.items l.now) }
{
    let wanted = one_text(w, l, x)?;
    Ok(match_here(w, l, wanted))
}

// Moves behind a text that stands at the position; it fails elsewhere.
fn match_here<L: Locals>(w: &mut World, l: &L, wanted: Span) -> Outcome
    requires locals { All (IsLive (extent_of w.old.heap)) (L.items l.now) }
    requires wanted { IsText (extent_of w.old.heap) wanted }
    ensures row { (outside : Outside)
        → matches_here (text_in (extent_of w.old.heap) wanted) (setting_of outside w.old (L.items l.now))
        ≡ outcome_in (extent_of w.new.heap) result (setting_of outside w.new (L.items l.now)) }
    ensures live { IsLiveOutcome (reach_of w.new (L.items l.now)) result }
    ensures kept { KeepsLive w.old (L.items l.now) w.new (L.items l.now) }
{
    let place = w.pair.position;
    let subject = w.heap.bytes(w.pair.subject);
    let bytes = w.heap.bytes(wanted);
    if stands(bytes, subject, place, subject.len() as u64 + 1) {
        let size = bytes.len() as u64;
        tab_to(w, l, place + size)
    } else {
        Outcome::Fails
    }
}
