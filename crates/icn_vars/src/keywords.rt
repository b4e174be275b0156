// Assigning to keywords.
ghost use Rattle.std.specs.Prelude.{◌≡◌, ◌≤◌, ◌+◌, ◌-◌, ◌<◌, ◌^◌, ◌%◌, true, List, length, is_some, IfErr, IfOk, IfSome};
ghost use Rattle.std.specs.List.{All};
ghost use Rattle.icn_value.specs.Store.{Outside};
ghost use Rattle.icn_defs.specs.Conversions.{held_text, position_of};
ghost use Rattle.icn_defs.specs.RowFacts.{word_holds};
ghost use Rattle.icn_defs.specs.ReadAndAssign.{assigns_keyword};
ghost use Rattle.icn_heap.specs.Extents.{IsLive, value_in};
ghost use Rattle.icn_heap.specs.Heaps.{extent_of};
ghost use Rattle.icn_value.specs.Values.{Subject as SubjectWord, Position as PositionWord, Random as RandomWord, ErrorCount as ErrorWord};
ghost use Rattle.icn_vars.specs.Assignments.{IsError, RootAssigned};
ghost use Rattle.icn_vars.specs.Stops.{IsLiveStop};
ghost use Rattle.icn_vars.specs.Worlds.{KeepsLive, setting_of, word_of};

use crate::locals::Locals;
use crate::stop::Stop;
use crate::texts::{has_text, made_text};
use crate::world::World;
use icn_convert::to_integer;
use icn_heap::short_text;
use icn_value::{KeywordVariable, Pair, Val};

/// Assigns to a keyword. `false` comes exactly where `&pos` would be out of range. `Stop` is the error of a value that the
/// keyword cannot hold or of a limit, or want of memory; this last only where the value has to be converted first.
pub fn assign_keyword<L: Locals>(
    w: &mut World,
    l: &L,
    word: KeywordVariable,
    val: Val,
) -> Result<bool, Stop>
    requires locals { All (IsLive (extent_of w.old.heap)) (L.items l.now) }
    requires value { IsLive (extent_of w.old.heap) val }
    ensures assigned { (outside : Outside) → RootAssigned (extent_of w.new.heap)
        (λ refused. assigns_keyword refused (word_of word) (value_in (extent_of w.old.heap) val))
        (setting_of outside w.old (L.items l.now)) (setting_of outside w.new (L.items l.now)) result }
    ensures stops { IfErr result (IsLiveStop (extent_of w.new.heap)) }
    ensures memory { word_holds (word_of word) (value_in (extent_of w.old.heap) val) ≡ true
        → IfErr result IsError }
    ensures kept { KeepsLive w.old (L.items l.now) w.new (L.items l.now) }
{
    match word {
        KeywordVariable::Subject => assign_subject(w, l, val),
        KeywordVariable::Position => assign_position(w, l, val),
        KeywordVariable::Random => assign_random(w, l, val),
        KeywordVariable::ErrorCount => assign_error(w, l, val),
    }
}

// Assigns to `&subject`, and sets `&pos` to 1.
#[tactic(auto, using(crate::proofs::KeptItems::keeps_items_refl))]
fn assign_subject<L: Locals>(w: &mut World, l: &L, val: Val) -> Result<bool, Stop>
    requires locals { All (IsLive (extent_of w.old.heap)) (L.items l.now) }
    requires value { IsLive (extent_of w.old.heap) val }
    ensures assigned { (outside : Outside) → RootAssigned (extent_of w.new.heap)
        (λ refused. assigns_keyword refused SubjectWord (value_in (extent_of w.old.heap) val))
        (setting_of outside w.old (L.items l.now)) (setting_of outside w.new (L.items l.now)) result }
    ensures stops { IfErr result (IsLiveStop (extent_of w.new.heap)) }
    ensures memory { is_some (held_text (value_in (extent_of w.old.heap) val)) ≡ true → IfErr result IsError }
    ensures kept { KeepsLive w.old (L.items l.now) w.new (L.items l.now) }
{
    match val {
        Val::Text(subject) => {
            w.pair = Pair {
                subject,
                position: 1,
            };
            Ok(true)
        }
        Val::Integer(_) | Val::Chars(_) => {
            let subject = made_text(w, l, val)?;
            w.pair = Pair {
                subject,
                position: 1,
            };
            Ok(true)
        }
        _ => Err(Stop::Error(103, Some(val))),
    }
}

// Assigns to `&pos`. `false` comes exactly where it would be out of range.
#[tactic(auto, using(crate::proofs::KeptItems::keeps_items_refl))]
fn assign_position<L: Locals>(w: &mut World, l: &L, val: Val) -> Result<bool, Stop>
    requires locals { All (IsLive (extent_of w.old.heap)) (L.items l.now) }
    requires value { IsLive (extent_of w.old.heap) val }
    ensures assigned { (outside : Outside) → RootAssigned (extent_of w.new.heap)
        (λ refused. assigns_keyword refused PositionWord (value_in (extent_of w.old.heap) val))
        (setting_of outside w.old (L.items l.now)) (setting_of outside w.new (L.items l.now)) result }
    ensures stops { IfErr result (IsLiveStop (extent_of w.new.heap)) }
    ensures memory { IfErr result IsError }
    ensures kept { KeepsLive w.old (L.items l.now) w.new (L.items l.now) }
{
    let n = match to_integer(&w.heap, val) {
        Some(n) => n,
        None => return Err(Stop::Error(101, Some(val))),
    };
    short_text(&w.heap, w.pair.subject);
    match position_of(n, w.heap.bytes(w.pair.subject).len() as u64) {
        Some(place) => {
            w.pair.position = place;
            Ok(true)
        }
        None => Ok(false),
    }
}

// Assigns to `&random`.
#[tactic(auto, using(crate::proofs::KeptItems::keeps_items_refl))]
fn assign_random<L: Locals>(w: &mut World, l: &L, val: Val) -> Result<bool, Stop>
    requires locals { All (IsLive (extent_of w.old.heap)) (L.items l.now) }
    requires value { IsLive (extent_of w.old.heap) val }
    ensures assigned { (outside : Outside) → RootAssigned (extent_of w.new.heap)
        (λ refused. assigns_keyword refused RandomWord (value_in (extent_of w.old.heap) val))
        (setting_of outside w.old (L.items l.now)) (setting_of outside w.new (L.items l.now)) result }
    ensures stops { IfErr result (IsLiveStop (extent_of w.new.heap)) }
    ensures memory { IfErr result IsError }
    ensures kept { KeepsLive w.old (L.items l.now) w.new (L.items l.now) }
{
    match to_integer(&w.heap, val) {
        Some(n) => {
            w.words.random = (n.cast_unsigned() % (1 << 31)) as u32;
            Ok(true)
        }
        None => Err(Stop::Error(101, Some(val))),
    }
}

// Assigns to `&error`.
#[tactic(auto, using(crate::proofs::KeptItems::keeps_items_refl))]
fn assign_error<L: Locals>(w: &mut World, l: &L, val: Val) -> Result<bool, Stop>
    requires locals { All (IsLive (extent_of w.old.heap)) (L.items l.now) }
    requires value { IsLive (extent_of w.old.heap) val }
    ensures assigned { (outside : Outside) → RootAssigned (extent_of w.new.heap)
        (λ refused. assigns_keyword refused ErrorWord (value_in (extent_of w.old.heap) val))
        (setting_of outside w.old (L.items l.now)) (setting_of outside w.new (L.items l.now)) result }
    ensures stops { IfErr result (IsLiveStop (extent_of w.new.heap)) }
    ensures memory { IfErr result IsError }
    ensures kept { KeepsLive w.old (L.items l.now) w.new (L.items l.now) }
{
    match to_integer(&w.heap, val) {
        Some(n) => {
            w.words.error = n;
            Ok(true)
        }
        None => Err(Stop::Error(101, Some(val))),
    }
}

/// The place that a position means in a text of so many bytes, from 1 on: at or below 0 it counts from the end. `None` comes exactly
/// where it is out of range. It takes no memory.
pub fn position_of(position: i64, size: u64) -> Option<u64>
    requires { size < 2 ^ 63 }
    ensures place { result ≡ position_of position size }
    ensures low { IfSome result (λ place. 1 ≤ place) }
    ensures high { IfSome result (λ place. place ≤ size + 1) }
{
    if position > 0 {
        let place = position as u64;
        if place <= size + 1 { Some(place) } else { None }
    } else {
        let back = position.unsigned_abs();
        if back <= size {
            Some(size + 1 - back)
        } else {
            None
        }
    }
}
