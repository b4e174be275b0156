// The functions that search for a text or for the bytes of a cset.
ghost use Rattle.std.specs.Prelude.{◌≡◌, ◌+◌, map};
ghost use Rattle.icn_value.specs.Members.{members_of};
ghost use Rattle.icn_value.specs.Store.{Outside};
ghost use Rattle.icn_defs.specs.Scanning.{among_from, find_row, found_from, upto_row};
ghost use Rattle.icn_heap.specs.Extents.{IsText, text_in, value_in};
ghost use Rattle.icn_heap.specs.Heaps.{extent_of};
ghost use Rattle.icn_vars.specs.Outcomes.{IsLiveAnswer, IsLiveOutcome, IsSearch, outcome_in};
ghost use Rattle.icn_vars.specs.Worlds.{AreLiveArguments, KeepsLive, reach_of, setting_of};
ghost use Rattle.icn_args.specs.RowWords.{Answers};
ghost use Rattle.icn_scanfn.specs.Regions.{searched_in};
ghost use Rattle.icn_scanfn.specs.Searches.{find_in, upto_in};

use crate::regions::{Searched, ends_of};
use crate::searches::{cset_search, text_search};
use crate::searching::{next_member, next_occurrence};
use icn_heap::short_text;
use icn_value::{Cset, Item, Residual, Span, Val};
use icn_vars::{Halt, Locals, Outcome, World};

/// `find(s1, s, i, j)`: each place of a part of a text at which another text stands, from the first on; it fails where there is none.
/// The errors are 103, 101, 306 and want of memory.
pub fn find_row<L: Locals>(w: &mut World, l: &L, args: &[Val]) -> Result<Outcome, Halt>
    requires live { AreLiveArguments w.old (L.items l.now) args.now }
    ensures row { Answers w.old (L.items l.now) w.new (L.items l.now)
        (find_row (map (value_in (extent_of w.old.heap)) args.now)) result }
    ensures live { IsLiveAnswer (reach_of w.new (L.items l.now)) result }
    ensures kept { KeepsLive w.old (L.items l.now) w.new (L.items l.now) }
{
    let (wanted, searched) = text_search(w, l, args)?;
    Ok(find_in(w, l, wanted, searched))
}

// The first place at which a text stands.
fn find_in<L: Locals>(w: &World, l: &L, wanted: Span, searched: Searched) -> Outcome
    requires wanted { IsText (extent_of w.now.heap) wanted }
    requires text { IsText (extent_of w.now.heap) searched.text }
    ensures row { (outside : Outside) → find_in (text_in (extent_of w.now.heap) wanted)
        (searched_in (extent_of w.now.heap) searched) (setting_of outside w.now (L.items l.now))
        ≡ outcome_in (extent_of w.now.heap) result (setting_of outside w.now (L.items l.now)) }
    ensures live { IsLiveOutcome (reach_of w.now (L.items l.now)) result }
{
    match ends_of(&w.heap, searched) {
        Some((from, to)) => found_from(w, l, wanted, searched.text, from, to),
        None => Outcome::Fails,
    }
}

// The next place from this one on at which a text stands and ends by the last place.
fn found_from<L: Locals>(
    w: &World,
    _l: &L,
    wanted: Span,
    text: Span,
    place: u64,
    last: u64,
) -> Outcome
    requires wanted { IsText (extent_of w.now.heap) wanted }
    requires search { IsSearch (extent_of w.now.heap) text place last }
    ensures row { (outside : Outside) → found_from (text_in (extent_of w.now.heap) wanted)
        (text_in (extent_of w.now.heap) text) place last (setting_of outside w.now (L.items _l.now))
        ≡ outcome_in (extent_of w.now.heap) result (setting_of outside w.now (L.items _l.now)) }
    ensures live { IsLiveOutcome (reach_of w.now (L.items _l.now)) result }
{
    short_text(&w.heap, text);
    match next_occurrence(w.heap.bytes(wanted), w.heap.bytes(text), place, last) {
        Some(found) => {
            let rest = Residual::Found {
                wanted,
                text,
                place: found,
                last,
            };
            Outcome::Suspends(Item::Val(Val::Integer(found as i64)), rest)
        }
        None => Outcome::Fails,
    }
}

/// The next place at which the text stands, behind the one that was given last.
pub fn found_again<L: Locals>(
    w: &World,
    l: &L,
    wanted: Span,
    text: Span,
    place: u64,
    last: u64,
) -> Outcome
    requires wanted { IsText (extent_of w.now.heap) wanted }
    requires search { IsSearch (extent_of w.now.heap) text place last }
    ensures row { (outside : Outside) → found_from (text_in (extent_of w.now.heap) wanted)
        (text_in (extent_of w.now.heap) text) (place + 1) last (setting_of outside w.now (L.items l.now))
        ≡ outcome_in (extent_of w.now.heap) result (setting_of outside w.now (L.items l.now)) }
    ensures live { IsLiveOutcome (reach_of w.now (L.items l.now)) result }
{
    if place < last {
        found_from(w, l, wanted, text, place + 1, last)
    } else {
        Outcome::Fails
    }
}

/// `upto(c, s, i, j)`: each place of a part of a text before a byte of the cset, from the first on; it fails where there is none. The
/// errors are 104, 103, 101, 306 and want of memory.
pub fn upto_row<L: Locals>(w: &mut World, l: &L, args: &[Val]) -> Result<Outcome, Halt>
    requires live { AreLiveArguments w.old (L.items l.now) args.now }
    ensures row { Answers w.old (L.items l.now) w.new (L.items l.now)
        (upto_row (map (value_in (extent_of w.old.heap)) args.now)) result }
    ensures live { IsLiveAnswer (reach_of w.new (L.items l.now)) result }
    ensures kept { KeepsLive w.old (L.items l.now) w.new (L.items l.now) }
{
    let (wanted, searched) = cset_search(w, l, args)?;
    Ok(upto_in(w, l, wanted, searched))
}

// The first place before a byte of the cset.
fn upto_in<L: Locals>(w: &World, l: &L, wanted: Cset, searched: Searched) -> Outcome
    requires { IsText (extent_of w.now.heap) searched.text }
    ensures row { (outside : Outside) → upto_in (members_of wanted)
        (searched_in (extent_of w.now.heap) searched) (setting_of outside w.now (L.items l.now))
        ≡ outcome_in (extent_of w.now.heap) result (setting_of outside w.now (L.items l.now)) }
    ensures live { IsLiveOutcome (reach_of w.now (L.items l.now)) result }
{
    match ends_of(&w.heap, searched) {
        Some((from, to)) => among_from(w, l, wanted, searched.text, from, to),
        None => Outcome::Fails,
    }
}

// The next place from this one on, below the last, before a byte of the cset.
fn among_from<L: Locals>(
    w: &World,
    _l: &L,
    wanted: Cset,
    text: Span,
    place: u64,
    last: u64,
) -> Outcome
    requires { IsSearch (extent_of w.now.heap) text place last }
    ensures row { (outside : Outside) → among_from (members_of wanted)
        (text_in (extent_of w.now.heap) text) place last (setting_of outside w.now (L.items _l.now))
        ≡ outcome_in (extent_of w.now.heap) result (setting_of outside w.now (L.items _l.now)) }
    ensures live { IsLiveOutcome (reach_of w.now (L.items _l.now)) result }
{
    short_text(&w.heap, text);
    match next_member(&wanted, w.heap.bytes(text), place, last) {
        Some(found) => {
            let rest = Residual::Among {
                wanted,
                text,
                place: found,
                last,
            };
            Outcome::Suspends(Item::Val(Val::Integer(found as i64)), rest)
        }
        None => Outcome::Fails,
    }
}

/// The next place before a byte of the cset, behind the one that was given last.
pub fn among_again<L: Locals>(
    w: &World,
    l: &L,
    wanted: Cset,
    text: Span,
    place: u64,
    last: u64,
) -> Outcome
    requires { IsSearch (extent_of w.now.heap) text place last }
    ensures row { (outside : Outside) → among_from (members_of wanted)
        (text_in (extent_of w.now.heap) text) (place + 1) last (setting_of outside w.now (L.items l.now))
        ≡ outcome_in (extent_of w.now.heap) result (setting_of outside w.now (L.items l.now)) }
    ensures live { IsLiveOutcome (reach_of w.now (L.items l.now)) result }
{
    if place < last {
        among_from(w, l, wanted, text, place + 1, last)
    } else {
        Outcome::Fails
    }
}
