// The functions that lay a text out in a field, and the one that maps its bytes.
ghost use Rattle.std.specs.Prelude.{IfErr, IfOk, OnOk, map};
ghost use Rattle.std.specs.List.{All};
ghost use Rattle.icn_value.specs.Store.{Setting};
ghost use Rattle.icn_convert.specs.TextCharges.{MakesNoText};
ghost use Rattle.icn_defs.specs.Arguments.{arg};
ghost use Rattle.icn_defs.specs.Strings.{field_row, map_row};
ghost use Rattle.icn_heap.specs.Extents.{IsLive, value_in};
ghost use Rattle.icn_heap.specs.Heaps.{extent_of};
ghost use Rattle.icn_vars.specs.Outcomes.{IsLiveAnswer, answer_of};
ghost use Rattle.icn_vars.specs.Assignments.{IsError};
ghost use Rattle.icn_vars.specs.Stops.{IsLiveStop};
ghost use Rattle.icn_vars.specs.Worlds.{AreLiveArguments, KeepsLive, reach_of};
ghost use Rattle.icn_args.specs.RowWords.{Answers};
ghost use Rattle.icn_strfn.specs.Checks.{IsField, IsMapping, StopsRow};
ghost use Rattle.icn_strfn.specs.Layouts.{laid_out};
ghost use Rattle.icn_strfn.specs.Stopping.{LimitsRow};
ghost use Rattle.icn_strfn.specs.declared.layouts.Layout.{Layout as LayoutData};

use crate::defaults::or_one;
use crate::integers::natural_number;
use crate::layouts::Layout;
use crate::new_texts::{build_laid_out, build_mapped};
use crate::text_arguments::{
    DefaultText, argument_len, lacks_argument, lacks_text, text_argument, two_texts,
};
use icn_args::arg;
use icn_convert::to_integer;
use icn_heap::Heap;
use icn_value::Val;
use icn_vars::{Halt, Locals, Stop, ValueOutcome, World};

/// `left(s, i, s2)`, `right` and `center`: a text in a field of `i` bytes, 1 where it is null, filled with `s2`, a blank where it is
/// null; or error 103 or 101; 205 where `i` is below 0. Others are 306 and want of memory.
#[tactic(auto, using(icn_vars::proofs::KeptItems::keeps_items_refl))]
pub fn field_row<L: Locals>(
    w: &mut World,
    l: &L,
    layout: Layout,
    args: &[Val],
) -> Result<ValueOutcome, Halt>
    requires live { AreLiveArguments w.old (L.items l.now) args.now }
    ensures row { Answers w.old (L.items l.now) w.new (L.items l.now)
        (field_row (laid_out layout) (map (value_in (extent_of w.old.heap)) args.now)) (answer_of result) }
    ensures limits { MakesNoText (arg (map (value_in (extent_of w.old.heap)) args.now) 0)
        → MakesNoText (arg (map (value_in (extent_of w.old.heap)) args.now) 2)
        → LimitsRow w.old (L.items l.now)
        (field_row (laid_out layout) (map (value_in (extent_of w.old.heap)) args.now)) result }
    ensures live { IsLiveAnswer (reach_of w.new (L.items l.now)) (answer_of result) }
    ensures kept { KeepsLive w.old (L.items l.now) w.new (L.items l.now) }
{
    let width = checked_width(&w.heap, args)?;
    let val = arg(args, 0);
    let other = arg(args, 2);
    let (span, fill) = two_texts(w, l, val, other, DefaultText::Blank)?;
    build_laid_out(w, l, layout, span, width, fill)
}

// The width of a field, once all is checked.
fn checked_width(heap: &Heap, args: &[Val]) -> Result<u64, Stop>
    requires { All (IsLive (extent_of heap.now)) args.now }
    ensures field { IfOk result (IsField (map (value_in (extent_of heap.now)) args.now)) }
    ensures stops { IfErr result
        (λ stop. (layout : LayoutData) (setting : Setting) → StopsRow (extent_of heap.now)
        (field_row (laid_out layout) (map (value_in (extent_of heap.now)) args.now)) setting stop) }
    ensures live { IfErr result (IsLiveStop (extent_of heap.now)) }
    ensures error { IfErr result IsError }
{
    let val = arg(args, 0);
    let given = arg(args, 1);
    let fill = arg(args, 2);
    let count = or_one(given);
    if lacks_text(val) {
        return Err(Stop::Error(103, Some(val)));
    }
    let Some(n) = to_integer(heap, count) else {
        return Err(Stop::Error(101, Some(count)));
    };
    if lacks_argument(fill, DefaultText::Blank) {
        return Err(Stop::Error(103, Some(fill)));
    }
    let Some(width) = natural_number(n) else {
        return Err(Stop::Error(205, Some(given)));
    };
    Ok(width)
}

/// `map(s1, s2, s3)`: a text whose bytes in `s2`, the capital letters where it is null, become those at their last places in `s3`,
/// the small letters where it is null; or error 103; 208 where the two differ in length. Others are 306 and want of memory.
#[tactic(auto, using(icn_vars::proofs::KeptItems::keeps_items_refl))]
pub fn map_row<L: Locals>(w: &mut World, l: &L, args: &[Val]) -> Result<ValueOutcome, Halt>
    requires live { AreLiveArguments w.old (L.items l.now) args.now }
    ensures row { Answers w.old (L.items l.now) w.new (L.items l.now)
        (map_row (map (value_in (extent_of w.old.heap)) args.now)) (answer_of result) }
    ensures limits { MakesNoText (arg (map (value_in (extent_of w.old.heap)) args.now) 0)
        → MakesNoText (arg (map (value_in (extent_of w.old.heap)) args.now) 1)
        → MakesNoText (arg (map (value_in (extent_of w.old.heap)) args.now) 2)
        → LimitsRow w.old (L.items l.now) (map_row (map (value_in (extent_of w.old.heap)) args.now)) result }
    ensures live { IsLiveAnswer (reach_of w.new (L.items l.now)) (answer_of result) }
    ensures kept { KeepsLive w.old (L.items l.now) w.new (L.items l.now) }
{
    checked_mapping(&w.heap, args)?;
    let val = arg(args, 0);
    let from = arg(args, 1);
    let to = arg(args, 2);
    let (span, first) = two_texts(w, l, val, from, DefaultText::Upper)?;
    let second = text_argument(w, l, to, DefaultText::Lower)?;
    build_mapped(w, l, span, first, second)
}

// That the bytes of a text can become others.
fn checked_mapping(heap: &Heap, args: &[Val]) -> Result<(), Stop>
    requires { All (IsLive (extent_of heap.now)) args.now }
    ensures mapping { OnOk result (IsMapping (map (value_in (extent_of heap.now)) args.now)) }
    ensures stops { IfErr result (λ stop. (setting : Setting) → StopsRow (extent_of heap.now)
        (map_row (map (value_in (extent_of heap.now)) args.now)) setting stop) }
    ensures live { IfErr result (IsLiveStop (extent_of heap.now)) }
    ensures error { IfErr result IsError }
{
    let val = arg(args, 0);
    let from = arg(args, 1);
    let to = arg(args, 2);
    if lacks_text(val) {
        return Err(Stop::Error(103, Some(val)));
    }
    if lacks_argument(from, DefaultText::Upper) {
        return Err(Stop::Error(103, Some(from)));
    }
    if lacks_argument(to, DefaultText::Lower) {
        return Err(Stop::Error(103, Some(to)));
    }
    if argument_len(heap, from, DefaultText::Upper) != argument_len(heap, to, DefaultText::Lower) {
        return Err(Stop::Error(208, None));
    }
    Ok(())
}
