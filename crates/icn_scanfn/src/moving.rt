// The functions that move in the subject, and the one that tests the position.
ghost use Rattle.std.specs.Prelude.{◌≡◌, ◌≤◌, ◌<◌, ◌+◌, ◌-◌, ◌^◌, ◌+ℤ◌, pos, length, map, IfSome};
ghost use Rattle.std.specs.List.{All};
ghost use Rattle.icn_value.specs.Store.{Outside};
ghost use Rattle.icn_defs.specs.Scanning.{move_row, plain_position, pos_row, tab_row};
ghost use Rattle.icn_heap.specs.Extents.{IsLive, text_in, value_in};
ghost use Rattle.icn_heap.specs.Heaps.{extent_of};
ghost use Rattle.icn_vars.specs.Outcomes.{IsLiveAnswer, IsLiveOutcome, answer_of, outcome_in, outcome_of};
ghost use Rattle.icn_vars.specs.Worlds.{AreLiveArguments, KeepsLive, reach_of, setting_of};
ghost use Rattle.icn_args.specs.RowWords.{Answers};
ghost use Rattle.icn_scanfn.specs.Moves.{moves_by, tabs_by, tests_position};

use icn_args::{arg, integer_of, tab_to};
use icn_heap::short_text;
use icn_value::Val;
use icn_vars::{Halt, Locals, Outcome, ValueOutcome, World, position_of};

/// `tab(i)`: moves to a position of the subject, and gives the bytes between it and the old place; it fails where the position is
/// out of range. The error is 101.
pub fn tab_row<L: Locals>(w: &mut World, l: &L, args: &[Val]) -> Result<Outcome, Halt>
    requires live { AreLiveArguments w.old (L.items l.now) args.now }
    ensures row { Answers w.old (L.items l.now) w.new (L.items l.now)
        (tab_row (map (value_in (extent_of w.old.heap)) args.now)) result }
    ensures live { IsLiveAnswer (reach_of w.new (L.items l.now)) result }
    ensures kept { KeepsLive w.old (L.items l.now) w.new (L.items l.now) }
{
    let n = integer_of(&w.heap, arg(args, 0))?;
    Ok(tab_by(w, l, n))
}

// Moves to a position, or fails where it is out of range.
fn tab_by<L: Locals>(w: &mut World, l: &L, n: i64) -> Outcome
    requires locals { All (IsLive (extent_of w.old.heap)) (L.items l.now) }
    ensures row { (outside : Outside) → tabs_by n (setting_of outside w.old (L.items l.now))
        ≡ outcome_in (extent_of w.new.heap) result (setting_of outside w.new (L.items l.now)) }
    ensures live { IsLiveOutcome (reach_of w.new (L.items l.now)) result }
    ensures kept { KeepsLive w.old (L.items l.now) w.new (L.items l.now) }
{
    short_text(&w.heap, w.pair.subject);
    let size = w.heap.bytes(w.pair.subject).len() as u64;
    match position_of(n, size) {
        Some(place) => tab_to(w, l, place),
        None => Outcome::Fails,
    }
}

/// `move(i)`: moves so many bytes on in the subject, or back below 0, and gives those between; it fails where there are not so many.
/// The error is 101.
pub fn move_row<L: Locals>(w: &mut World, l: &L, args: &[Val]) -> Result<Outcome, Halt>
    requires live { AreLiveArguments w.old (L.items l.now) args.now }
    ensures row { Answers w.old (L.items l.now) w.new (L.items l.now)
        (move_row (map (value_in (extent_of w.old.heap)) args.now)) result }
    ensures live { IsLiveAnswer (reach_of w.new (L.items l.now)) result }
    ensures kept { KeepsLive w.old (L.items l.now) w.new (L.items l.now) }
{
    let n = integer_of(&w.heap, arg(args, 0))?;
    Ok(move_by(w, l, n))
}

// Moves so many bytes on, or fails where there are not so many.
fn move_by<L: Locals>(w: &mut World, l: &L, n: i64) -> Outcome
    requires locals { All (IsLive (extent_of w.old.heap)) (L.items l.now) }
    ensures row { (outside : Outside) → moves_by n (setting_of outside w.old (L.items l.now))
        ≡ outcome_in (extent_of w.new.heap) result (setting_of outside w.new (L.items l.now)) }
    ensures live { IsLiveOutcome (reach_of w.new (L.items l.now)) result }
    ensures kept { KeepsLive w.old (L.items l.now) w.new (L.items l.now) }
{
    short_text(&w.heap, w.pair.subject);
    let size = w.heap.bytes(w.pair.subject).len() as u64;
    match moved_place(w.pair.position, n, size) {
        Some(place) => tab_to(w, l, place),
        None => Outcome::Fails,
    }
}

/// The place so many bytes behind another one, in a text of so many bytes.
pub fn moved_place(place: u64, n: i64, size: u64) -> Option<u64>
    requires size { size < 2 ^ 63 - 1 }
    requires place { place ≤ size + 1 }
    ensures value { result ≡ plain_position (pos place +ℤ n) size }
    ensures low { IfSome result (λ moved. 1 ≤ moved) }
    ensures high { IfSome result (λ moved. moved ≤ size + 1) }
{
    if n >= 0 {
        let on = n as u64;
        if on <= size + 1 - place && place + on >= 1 {
            Some(place + on)
        } else {
            None
        }
    } else {
        let back = n.unsigned_abs();
        if back < place {
            Some(place - back)
        } else {
            None
        }
    }
}

/// `pos(i)`: the place of the position, where a position of the subject means it; else it fails. The error is 101.
pub fn pos_row<L: Locals>(w: &World, l: &L, args: &[Val]) -> Result<ValueOutcome, Halt>
    requires args { All (IsLive (extent_of w.now.heap)) args.now }
    ensures row { Answers w.now (L.items l.now) w.now (L.items l.now)
        (pos_row (map (value_in (extent_of w.now.heap)) args.now)) (answer_of result) }
    ensures live { IsLiveAnswer (reach_of w.now (L.items l.now)) (answer_of result) }
{
    let n = integer_of(&w.heap, arg(args, 0))?;
    Ok(position_tested(w, l, n))
}

// The place of the position, where this position means it.
fn position_tested<L: Locals>(w: &World, _l: &L, n: i64) -> ValueOutcome
    ensures row { (outside : Outside) → tests_position n (setting_of outside w.now (L.items _l.now))
        ≡ outcome_in (extent_of w.now.heap) (outcome_of result) (setting_of outside w.now (L.items _l.now)) }
    ensures live { IsLiveOutcome (reach_of w.now (L.items _l.now)) (outcome_of result) }
{
    short_text(&w.heap, w.pair.subject);
    let size = w.heap.bytes(w.pair.subject).len() as u64;
    match position_of(n, size) {
        Some(place) => {
            if place == w.pair.position {
                ValueOutcome::Gives(Val::Integer(place as i64))
            } else {
                ValueOutcome::Fails
            }
        }
        None => ValueOutcome::Fails,
    }
}
