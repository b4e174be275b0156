// Moving in the subject, and texts that stand in others.
ghost use Rattle.std.specs.Prelude.{◌≡◌, ◌≢◌, ◌+◌, ◌≤◌, length, IfErr};
ghost use Rattle.std.specs.List.{All};
ghost use Rattle.icn_value.specs.Store.{Outside};
ghost use Rattle.icn_defs.specs.Scanning.{stands, tabs_to, undo_position_again};
ghost use Rattle.icn_heap.specs.Extents.{IsLive, text_in};
ghost use Rattle.icn_heap.specs.Heaps.{extent_of};
ghost use Rattle.icn_vars.specs.Outcomes.{IsLiveAnswer, IsLiveOutcome, outcome_in};
ghost use Rattle.icn_vars.specs.Worlds.{KeepsLive, reach_of, setting_of};
ghost use Rattle.icn_vars.specs.declared.outcome.Halt.TheVariants.{NoMemory};
ghost use Rattle.icn_args.specs.RowWords.{Answers};

use icn_value::{Item, Residual, Val};
use icn_vars::{Halt, Locals, Outcome, World};

/// Whether a text stands behind a place of another one, and ends by a further place of it. It takes no memory.
pub fn stands(wanted: &[u8], text: &[u8], place: u64, last: u64) -> bool
    requires place { 1 ≤ place }
    requires last { last ≤ length text.now + 1 }
    ensures { result ≡ stands wanted.now text.now place last }
{
    let size = wanted.len() as u64;
    if place > last || size > last - place {
        return false;
    }
    let start = (place - 1) as usize;
    wanted == &text[start..start + wanted.len()]
}

/// Moves to a place of the subject, and gives the bytes between it and the old place. It takes no memory.
pub fn tab_to<L: Locals>(w: &mut World, l: &L, place: u64) -> Outcome
    requires locals { All (IsLive (extent_of w.old.heap)) (L.items l.now) }
    requires low { 1 ≤ place }
    requires high { place ≤ length (text_in (extent_of w.old.heap) w.old.pair.subject) + 1 }
    ensures row { (outside : Outside) → tabs_to place (setting_of outside w.old (L.items l.now))
        ≡ outcome_in (extent_of w.new.heap) result (setting_of outside w.new (L.items l.now)) }
    ensures live { IsLiveOutcome (reach_of w.new (L.items l.now)) result }
    ensures kept { KeepsLive w.old (L.items l.now) w.new (L.items l.now) }
{
    let old = w.pair.position;
    let from = old.min(place);
    let to = old.max(place);
    let text = w.heap.part(w.pair.subject, from - 1, to - from);
    w.pair.position = place;
    Outcome::Suspends(Item::Val(Val::Text(text)), Residual::UndoPosition { old })
}

/// Moves back to the place that `tab_to` left, and fails. The error is 205 where the subject is too short now. It takes no memory.
pub fn undo_position_again<L: Locals>(w: &mut World, l: &L, old: u64) -> Result<Outcome, Halt>
    requires locals { All (IsLive (extent_of w.old.heap)) (L.items l.now) }
    requires place { 1 ≤ old }
    ensures row { Answers w.old (L.items l.now) w.new (L.items l.now) (undo_position_again old) result }
    ensures memory { IfErr result (λ halt. halt ≢ NoMemory) }
    ensures live { IsLiveAnswer (reach_of w.new (L.items l.now)) result }
    ensures kept { KeepsLive w.old (L.items l.now) w.new (L.items l.now) }
{
    let size = w.heap.bytes(w.pair.subject).len() as u64;
    if old - 1 > size {
        return Err(Halt::Error(205, None));
    }
    w.pair.position = old;
    Ok(Outcome::Fails)
}
