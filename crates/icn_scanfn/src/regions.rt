// A text and two positions in it, as arguments.
ghost use Rattle.std.specs.Prelude.{◌≡◌, ◌<◌, ◌≤◌, ◌+◌, ◌-◌, ◌^◌, ℕ, pos, List, length, map, IfErr, IfOk, IfSome};
ghost use Rattle.std.specs.List.{All};
ghost use Rattle.icn_value.specs.Store.{Outside, Setting};
ghost use Rattle.icn_value.specs.declared.val.Val.{Val as ValData};
ghost use Rattle.icn_defs.specs.Arguments.{arg};
ghost use Rattle.icn_defs.specs.Conversions.{form_of, text_made};
ghost use Rattle.icn_defs.specs.Rows.{Row, thing_or_failure};
ghost use Rattle.icn_defs.specs.Scanning.{ends_of, region_from};
ghost use Rattle.icn_defs.specs.Variables.{places};
ghost use Rattle.icn_heap.specs.Extents.{Extent, IsLive, IsText, text_in, value_in};
ghost use Rattle.icn_heap.specs.Heaps.{extent_of};
ghost use Rattle.icn_vars.specs.Outcomes.{IsSearch};
ghost use Rattle.icn_vars.specs.Stops.{IsLiveStop};
ghost use Rattle.icn_vars.specs.Worlds.{AreLiveArguments, KeepsLive, setting_of};
ghost use Rattle.icn_args.specs.RowWords.{IsFound, HasText};
ghost use Rattle.icn_scanfn.specs.Regions.{charged_region, given_in, searched_in};

use crate::defaults::first_position;
use icn_args::{arg, check_text, integer_of, text_of, value_or};
use icn_heap::{Heap, short_text};
use icn_value::{Span, Val};
use icn_vars::{Locals, Stop, World, position_of};

// A value that has a text, and two positions in that text.
#[derive(Clone, Copy, Debug, PartialEq, Eq)]
pub struct Given {
    // The value whose text it is.
    pub val: Val,
    // The first position.
    pub first: i64,
    // The second position.
    pub last: i64,
}

// A text of the heap, and two positions in it.
#[derive(Clone, Copy, Debug, PartialEq, Eq)]
pub struct Searched {
    // The text.
    pub text: Span,
    // The first position.
    pub first: i64,
    // The second position.
    pub last: i64,
}

/// The arguments from this one on as a text and two positions. The text is `&subject` where it is null, and then the first
/// position is `&pos` where that is null, else 1; the second is 0 where it is null. The errors are 103 and 101.
pub fn region_from(w: &World, args: &[Val], place: usize) -> Result<Given, Stop>
    requires args { All (IsLive (extent_of w.now.heap)) args.now }
    requires place { place < 2 ^ 32 }
    ensures found { (outside : Outside) (locals : List ValData) → IsFound (extent_of w.now.heap)
        (region_from (map (value_in (extent_of w.now.heap)) args.now) place) (setting_of outside w.now locals)
        (setting_of outside w.now locals) (given_in (extent_of w.now.heap)) result }
    ensures live { IfOk result (λ given. IsLive (extent_of w.now.heap) given.val) }
    ensures has { IfOk result (λ given. HasText (value_in (extent_of w.now.heap) given.val)) }
    ensures made { IfOk result (λ given. text_made (form_of (value_in (extent_of w.now.heap) given.val))
        ≡ text_made (form_of (arg (map (value_in (extent_of w.now.heap)) args.now) place))) }
    ensures stops { IfErr result (IsLiveStop (extent_of w.now.heap)) }
{
    let text = arg(args, place);
    let val = value_or(Val::Text(w.pair.subject), text);
    check_text(val)?;
    let begin = value_or(first_position(w, text), arg(args, place + 1));
    let first = integer_of(&w.heap, begin)?;
    let end = value_or(Val::Integer(0), arg(args, place + 2));
    let last = integer_of(&w.heap, end)?;
    Ok(Given { val, first, last })
}

/// The same, once the text is charged. Further errors are 306 and want of memory.
#[tactic(auto, using(icn_vars::proofs::KeptItems::keeps_items_refl))]
pub fn charged_region<L: Locals>(
    w: &mut World,
    l: &L,
    args: &[Val],
    place: usize,
) -> Result<Searched, Stop>
    requires live { AreLiveArguments w.old (L.items l.now) args.now }
    requires place { place < 2 ^ 32 }
    ensures found { (outside : Outside)
        → IsFound (extent_of w.new.heap)
        (charged_region (map (value_in (extent_of w.old.heap)) args.now) place)
        (setting_of outside w.old (L.items l.now)) (setting_of outside w.new (L.items l.now))
        (searched_in (extent_of w.new.heap)) result }
    ensures live { IfOk result (λ searched. IsText (extent_of w.new.heap) searched.text) }
    ensures stops { IfErr result (IsLiveStop (extent_of w.new.heap)) }
    ensures kept { KeepsLive w.old (L.items l.now) w.new (L.items l.now) }
{
    let given = region_from(w, args, place)?;
    let text = text_of(w, l, given.val)?;
    Ok(Searched {
        text,
        first: given.first,
        last: given.last,
    })
}

/// The places that the two positions mean, the smaller first, or none where one is out of range.
pub fn ends_of(heap: &Heap, searched: Searched) -> Option<(u64, u64)>
    requires { IsText (extent_of heap.now) searched.text }
    ensures ends { (next : ℕ × ℕ → Row) (setting : Setting)
        → ends_of (searched_in (extent_of heap.now) searched) next setting
        ≡ thing_or_failure result next setting }
    ensures low { IfSome result (λ ends. 1 ≤ ends.0) }
    ensures order { IfSome result (λ ends. ends.0 ≤ ends.1) }
    ensures high { IfSome result (λ ends. ends.1 ≤ length (text_in (extent_of heap.now) searched.text) + 1) }
    ensures search { IfSome result (λ ends. IsSearch (extent_of heap.now) searched.text ends.0 ends.1) }
{
    short_text(heap, searched.text);
    let size = heap.bytes(searched.text).len() as u64;
    ordered_places(searched.first, searched.last, size)
}

// The places that two positions mean in a text of so many bytes.
fn ordered_places(first: i64, last: i64, size: u64) -> Option<(u64, u64)>
    requires { size < 2 ^ 63 - 1 }
    ensures ends { (next : ℕ × ℕ → Row) (setting : Setting)
        → places first last size next setting ≡ thing_or_failure result next setting }
    ensures low { IfSome result (λ ends. 1 ≤ ends.0) }
    ensures order { IfSome result (λ ends. ends.0 ≤ ends.1) }
    ensures high { IfSome result (λ ends. ends.1 ≤ size + 1) }
{
    let a = position_of(first, size)?;
    let b = position_of(last, size)?;
    if a <= b { Some((a, b)) } else { Some((b, a)) }
}
