// The search for balanced places.
ghost use Rattle.std.specs.Prelude.{◌≡◌, ◌≤◌, map, IfErr};
ghost use Rattle.std.specs.List.{All};
ghost use Rattle.icn_value.specs.Members.{members_of};
ghost use Rattle.icn_value.specs.Store.{Outside, Setting};
ghost use Rattle.icn_defs.specs.Scanning.{bal_row, balanced_again, balanced_from};
ghost use Rattle.icn_heap.specs.Extents.{IsLive, IsText, text_in, value_in};
ghost use Rattle.icn_heap.specs.Heaps.{extent_of};
ghost use Rattle.icn_vars.specs.Outcomes.{IsLiveAnswer, IsLiveOutcome, IsSearch, outcome_in};
ghost use Rattle.icn_vars.specs.Stops.{IsLiveStop};
ghost use Rattle.icn_vars.specs.Worlds.{AreLiveArguments, KeepsLive, reach_of, setting_of};
ghost use Rattle.icn_args.specs.RowWords.{Answers, IsFound};
ghost use Rattle.icn_scanfn.specs.Regions.{searched_in};
ghost use Rattle.icn_scanfn.specs.Searches.{balanced_in, balanced_sets, sets_of};

use crate::defaults::{or_all_bytes, or_closing, or_opening};
use crate::regions::{Searched, charged_region, ends_of};
use crate::searching::{count_behind, next_balanced};
use icn_args::{arg, cset_of};
use icn_heap::{Heap, short_text};
use icn_value::{Cset, Item, Residual, Span, Val};
use icn_vars::{Halt, Locals, Outcome, Stop, World};

/// The csets of a search for balanced places.
#[derive(Clone, Copy, Debug, PartialEq, Eq)]
pub struct Sets {
    /// The bytes to stand before.
    pub wanted: Cset,
    /// The bytes that open.
    pub opening: Cset,
    /// The bytes that close.
    pub closing: Cset,
}

/// `bal(c1, c2, c3, s, i, j)`: each place of a part of a text before a byte of `c1` between which and the start as many bytes of `c2`
/// stand as of `c3`, and nowhere more of `c3`; it fails where there is none. All bytes and the brackets `(` and `)` are meant where the
/// csets are null. The errors are 104, 103, 101, 306 and want of memory.
#[tactic(auto, using(icn_vars::proofs::KeptItems::keeps_items_refl))]
pub fn bal_row<L: Locals>(w: &mut World, l: &L, args: &[Val]) -> Result<Outcome, Halt>
    requires live { AreLiveArguments w.old (L.items l.now) args.now }
    ensures row { Answers w.old (L.items l.now) w.new (L.items l.now)
        (bal_row (map (value_in (extent_of w.old.heap)) args.now)) result }
    ensures live { IsLiveAnswer (reach_of w.new (L.items l.now)) result }
    ensures kept { KeepsLive w.old (L.items l.now) w.new (L.items l.now) }
{
    let sets = balanced_sets(&w.heap, args)?;
    let searched = charged_region(w, l, args, 3)?;
    Ok(balanced_in(w, l, sets, searched))
}

// The first three arguments: all bytes and the brackets, where they are null. The error is 104.
fn balanced_sets(heap: &Heap, args: &[Val]) -> Result<Sets, Stop>
    requires { All (IsLive (extent_of heap.now)) args.now }
    ensures found { (setting : Setting) → IsFound (extent_of heap.now)
        (balanced_sets (map (value_in (extent_of heap.now)) args.now)) setting setting sets_of result }
    ensures stops { IfErr result (IsLiveStop (extent_of heap.now)) }
{
    let wanted = cset_of(heap, or_all_bytes(arg(args, 0)))?;
    let opening = cset_of(heap, or_opening(arg(args, 1)))?;
    let closing = cset_of(heap, or_closing(arg(args, 2)))?;
    Ok(Sets {
        wanted,
        opening,
        closing,
    })
}

// The first balanced place.
fn balanced_in<L: Locals>(w: &World, l: &L, sets: Sets, searched: Searched) -> Outcome
    requires { IsText (extent_of w.now.heap) searched.text }
    ensures row { (outside : Outside) → balanced_in (sets_of sets)
        (searched_in (extent_of w.now.heap) searched) (setting_of outside w.now (L.items l.now))
        ≡ outcome_in (extent_of w.now.heap) result (setting_of outside w.now (L.items l.now)) }
    ensures live { IsLiveOutcome (reach_of w.now (L.items l.now)) result }
{
    match ends_of(&w.heap, searched) {
        Some((from, to)) => balanced_from(w, l, sets, searched.text, from, to, 0),
        None => Outcome::Fails,
    }
}

// The next balanced place from this one on, with this count there.
fn balanced_from<L: Locals>(
    w: &World,
    _l: &L,
    sets: Sets,
    text: Span,
    place: u64,
    last: u64,
    count: u64,
) -> Outcome
    requires search { IsSearch (extent_of w.now.heap) text place last }
    requires count { count ≤ place }
    ensures row { (outside : Outside)
        → balanced_from (members_of sets.wanted) (members_of sets.opening) (members_of sets.closing)
        (text_in (extent_of w.now.heap) text) place last count (setting_of outside w.now (L.items _l.now))
        ≡ outcome_in (extent_of w.now.heap) result (setting_of outside w.now (L.items _l.now)) }
    ensures live { IsLiveOutcome (reach_of w.now (L.items _l.now)) result }
{
    short_text(&w.heap, text);
    let bytes = w.heap.bytes(text);
    match next_balanced(
        &sets.wanted,
        &sets.opening,
        &sets.closing,
        bytes,
        place,
        last,
        count,
    ) {
        Some(found) => {
            let rest = Residual::Balanced {
                wanted: sets.wanted,
                opening: sets.opening,
                closing: sets.closing,
                text,
                place: found,
                last,
            };
            Outcome::Suspends(Item::Val(Val::Integer(found as i64)), rest)
        }
        None => Outcome::Fails,
    }
}

/// The next balanced place, behind the one that was given last.
pub fn balanced_again<L: Locals>(
    w: &World,
    l: &L,
    sets: Sets,
    text: Span,
    place: u64,
    last: u64,
) -> Outcome
    requires { IsSearch (extent_of w.now.heap) text place last }
    ensures row { (outside : Outside)
        → balanced_again (members_of sets.wanted) (members_of sets.opening) (members_of sets.closing)
        (text_in (extent_of w.now.heap) text) place last (setting_of outside w.now (L.items l.now))
        ≡ outcome_in (extent_of w.now.heap) result (setting_of outside w.now (L.items l.now)) }
    ensures live { IsLiveOutcome (reach_of w.now (L.items l.now)) result }
{
    if place >= last {
        return Outcome::Fails;
    }
    let byte = w.heap.bytes(text)[(place - 1) as usize];
    match count_behind(&sets.opening, &sets.closing, byte, 0) {
        Some(count) => balanced_from(w, l, sets, text, place + 1, last, count),
        None => Outcome::Fails,
    }
}
