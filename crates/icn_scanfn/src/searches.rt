// What searches are given, as arguments.
ghost use Rattle.std.specs.Prelude.{IfErr, IfOk, map};
ghost use Rattle.icn_value.specs.Members.{members_of};
ghost use Rattle.icn_value.specs.Store.{Outside};
ghost use Rattle.icn_heap.specs.Extents.{IsText, text_in, value_in};
ghost use Rattle.icn_heap.specs.Heaps.{extent_of};
ghost use Rattle.icn_vars.specs.Stops.{IsLiveStop};
ghost use Rattle.icn_vars.specs.Worlds.{AreLiveArguments, KeepsLive, setting_of};
ghost use Rattle.icn_args.specs.RowWords.{IsFound};
ghost use Rattle.icn_scanfn.specs.Regions.{searched_in};
ghost use Rattle.icn_scanfn.specs.Searches.{cset_search, text_search};

use crate::regions::{Searched, charged_region, region_from};
use icn_args::{arg, check_text, cset_of, texts_of};
use icn_value::{Cset, Span, Val};
use icn_vars::{Locals, Stop, World};

/// A cset, and a text with two positions. The errors are 104, 103, 101, 306 and want of memory.
#[tactic(auto, using(icn_vars::proofs::KeptItems::keeps_items_refl))]
pub fn cset_search<L: Locals>(w: &mut World, l: &L, args: &[Val]) -> Result<(Cset, Searched), Stop>
    requires live { AreLiveArguments w.old (L.items l.now) args.now }
    ensures found { (outside : Outside)
        → IsFound (extent_of w.new.heap) (cset_search (map (value_in (extent_of w.old.heap)) args.now))
        (setting_of outside w.old (L.items l.now)) (setting_of outside w.new (L.items l.now))
        (λ two. (members_of two.0, searched_in (extent_of w.new.heap) two.1)) result }
    ensures live { IfOk result (λ two. IsText (extent_of w.new.heap) two.1.text) }
    ensures stops { IfErr result (IsLiveStop (extent_of w.new.heap)) }
    ensures kept { KeepsLive w.old (L.items l.now) w.new (L.items l.now) }
{
    let wanted = cset_of(&w.heap, arg(args, 0))?;
    let searched = charged_region(w, l, args, 1)?;
    Ok((wanted, searched))
}

/// A text, and another one with two positions. The errors are 103, 101, 306 and want of memory.
#[tactic(auto, using(icn_vars::proofs::KeptItems::keeps_items_refl))]
pub fn text_search<L: Locals>(w: &mut World, l: &L, args: &[Val]) -> Result<(Span, Searched), Stop>
    requires live { AreLiveArguments w.old (L.items l.now) args.now }
    ensures found { (outside : Outside)
        → IsFound (extent_of w.new.heap) (text_search (map (value_in (extent_of w.old.heap)) args.now))
        (setting_of outside w.old (L.items l.now)) (setting_of outside w.new (L.items l.now))
        (λ two. (text_in (extent_of w.new.heap) two.0, searched_in (extent_of w.new.heap) two.1)) result }
    ensures wanted { IfOk result (λ two. IsText (extent_of w.new.heap) two.0) }
    ensures live { IfOk result (λ two. IsText (extent_of w.new.heap) two.1.text) }
    ensures stops { IfErr result (IsLiveStop (extent_of w.new.heap)) }
    ensures kept { KeepsLive w.old (L.items l.now) w.new (L.items l.now) }
{
    let val = arg(args, 0);
    check_text(val)?;
    let given = region_from(w, args, 1)?;
    let (wanted, text) = texts_of(w, l, val, given.val)?;
    let searched = Searched {
        text,
        first: given.first,
        last: given.last,
    };
    Ok((wanted, searched))
}
