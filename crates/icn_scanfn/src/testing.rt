// The functions that test a text at its first place.
ghost use Rattle.std.specs.Prelude.{◌≡◌, ◌&&◌, ◌^◌, ◌<◌, ◌≤◌, ◌+◌, length, map, nat_lt, MatchBool, ⊤};
ghost use Rattle.icn_value.specs.Members.{contains, members_of};
ghost use Rattle.icn_value.specs.Store.{Outside, Setting};
ghost use Rattle.icn_defs.specs.Scanning.{any_row, byte_behind, gives_position, many_row, match_row};
ghost use Rattle.icn_heap.specs.Extents.{Extent, IsText, text_in, value_in};
ghost use Rattle.icn_heap.specs.Heaps.{extent_of};
ghost use Rattle.icn_vars.specs.Outcomes.{IsLiveAnswer, IsLiveOutcome, answer_of, outcome_in, outcome_of};
ghost use Rattle.icn_vars.specs.Worlds.{AreLiveArguments, KeepsLive, Reach, reach_of};
ghost use Rattle.icn_args.specs.RowWords.{Answers};
ghost use Rattle.icn_scanfn.specs.Regions.{searched_in};
ghost use Rattle.icn_scanfn.specs.Searches.{any_in, many_in, match_in};

use crate::regions::{Searched, ends_of};
use crate::searches::{cset_search, text_search};
use crate::searching::run_length;
use icn_args::stands;
use icn_heap::{Heap, short_text};
use icn_value::{Cset, Span, Val};
use icn_vars::{Halt, Locals, ValueOutcome, World};

/// `any(c, s, i, j)`: the place behind the first byte of a part of a text, where that byte is of the cset; else it fails. The errors
/// are 104, 103, 101, 306 and want of memory.
pub fn any_row<L: Locals>(w: &mut World, l: &L, args: &[Val]) -> Result<ValueOutcome, Halt>
    requires live { AreLiveArguments w.old (L.items l.now) args.now }
    ensures row { Answers w.old (L.items l.now) w.new (L.items l.now)
        (any_row (map (value_in (extent_of w.old.heap)) args.now)) (answer_of result) }
    ensures live { IsLiveAnswer (reach_of w.new (L.items l.now)) (answer_of result) }
    ensures kept { KeepsLive w.old (L.items l.now) w.new (L.items l.now) }
{
    let (wanted, searched) = cset_search(w, l, args)?;
    Ok(any_in(&w.heap, &wanted, searched))
}

// The place behind the first byte, where it is of the cset.
fn any_in(heap: &Heap, wanted: &Cset, searched: Searched) -> ValueOutcome
    requires { IsText (extent_of heap.now) searched.text }
    ensures row { (setting : Setting)
        → any_in (members_of wanted.now) (searched_in (extent_of heap.now) searched) setting
        ≡ outcome_in (extent_of heap.now) (outcome_of result) setting }
    ensures live { (reach : Reach) → IsLiveOutcome reach (outcome_of result) }
{
    short_text(heap, searched.text);
    match ends_of(heap, searched) {
        Some((from, to)) => {
            if has_behind(wanted, heap.bytes(searched.text), from, to) {
                place_given(from + 1)
            } else {
                ValueOutcome::Fails
            }
        }
        None => ValueOutcome::Fails,
    }
}

/// Whether a byte of the cset stands behind a place, below another place.
pub fn has_behind(wanted: &Cset, text: &[u8], from: u64, to: u64) -> bool
    requires low { 1 ≤ from }
    requires high { to ≤ length text.now + 1 }
    ensures value { result
        ≡ (nat_lt from to && contains (members_of wanted.now) (byte_behind text.now from)) }
    ensures within { MatchBool result (from < to) ⊤ }
{
    from < to && wanted.has(text[(from - 1) as usize])
}

/// `many(c, s, i, j)`: the place behind all bytes of the cset with which a part of a text begins; it fails where there are none. The
/// errors are 104, 103, 101, 306 and want of memory.
pub fn many_row<L: Locals>(w: &mut World, l: &L, args: &[Val]) -> Result<ValueOutcome, Halt>
    requires live { AreLiveArguments w.old (L.items l.now) args.now }
    ensures row { Answers w.old (L.items l.now) w.new (L.items l.now)
        (many_row (map (value_in (extent_of w.old.heap)) args.now)) (answer_of result) }
    ensures live { IsLiveAnswer (reach_of w.new (L.items l.now)) (answer_of result) }
    ensures kept { KeepsLive w.old (L.items l.now) w.new (L.items l.now) }
{
    let (wanted, searched) = cset_search(w, l, args)?;
    Ok(many_in(&w.heap, &wanted, searched))
}

// The place behind the first bytes that are of the cset.
fn many_in(heap: &Heap, wanted: &Cset, searched: Searched) -> ValueOutcome
    requires { IsText (extent_of heap.now) searched.text }
    ensures row { (setting : Setting)
        → many_in (members_of wanted.now) (searched_in (extent_of heap.now) searched) setting
        ≡ outcome_in (extent_of heap.now) (outcome_of result) setting }
    ensures live { (reach : Reach) → IsLiveOutcome reach (outcome_of result) }
{
    short_text(heap, searched.text);
    match ends_of(heap, searched) {
        Some((from, to)) => {
            let count = run_length(wanted, heap.bytes(searched.text), from, to);
            if count > 0 {
                place_given(from + count)
            } else {
                ValueOutcome::Fails
            }
        }
        None => ValueOutcome::Fails,
    }
}

/// `match(s1, s, i, j)`: the place behind a text with which a part of another one begins; it fails where that begins otherwise. The
/// errors are 103, 101, 306 and want of memory.
pub fn match_row<L: Locals>(w: &mut World, l: &L, args: &[Val]) -> Result<ValueOutcome, Halt>
    requires live { AreLiveArguments w.old (L.items l.now) args.now }
    ensures row { Answers w.old (L.items l.now) w.new (L.items l.now)
        (match_row (map (value_in (extent_of w.old.heap)) args.now)) (answer_of result) }
    ensures live { IsLiveAnswer (reach_of w.new (L.items l.now)) (answer_of result) }
    ensures kept { KeepsLive w.old (L.items l.now) w.new (L.items l.now) }
{
    let (wanted, searched) = text_search(w, l, args)?;
    Ok(match_in(&w.heap, wanted, searched))
}

// The place behind a text that stands at the first place.
fn match_in(heap: &Heap, wanted: Span, searched: Searched) -> ValueOutcome
    requires wanted { IsText (extent_of heap.now) wanted }
    requires text { IsText (extent_of heap.now) searched.text }
    ensures row { (setting : Setting)
        → match_in (text_in (extent_of heap.now) wanted) (searched_in (extent_of heap.now) searched) setting
        ≡ outcome_in (extent_of heap.now) (outcome_of result) setting }
    ensures live { (reach : Reach) → IsLiveOutcome reach (outcome_of result) }
{
    short_text(heap, searched.text);
    let bytes = heap.bytes(wanted);
    match ends_of(heap, searched) {
        Some((from, to)) => {
            if stands(bytes, heap.bytes(searched.text), from, to) {
                place_given(from + bytes.len() as u64)
            } else {
                ValueOutcome::Fails
            }
        }
        None => ValueOutcome::Fails,
    }
}

// A place as what a row gives.
fn place_given(place: u64) -> ValueOutcome
    requires { place < 2 ^ 63 }
    ensures row { (all : Extent) (setting : Setting)
        → gives_position place setting ≡ outcome_in all (outcome_of result) setting }
    ensures live { (reach : Reach) → IsLiveOutcome reach (outcome_of result) }
{
    ValueOutcome::Gives(Val::Integer(place as i64))
}
