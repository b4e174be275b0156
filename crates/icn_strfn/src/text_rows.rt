// The functions over texts.
ghost use Rattle.std.specs.Prelude.{◌≡◌, map};
ghost use Rattle.icn_convert.specs.TextCharges.{MakesNoText};
ghost use Rattle.icn_defs.specs.Arguments.{arg};
ghost use Rattle.icn_defs.specs.Strings.{ord_row, repl_row, reverse_row, string_row, trim_row};
ghost use Rattle.icn_heap.specs.Extents.{value_in};
ghost use Rattle.icn_heap.specs.Heaps.{extent_of};
ghost use Rattle.icn_vars.specs.Outcomes.{IsLiveAnswer, answer_of};
ghost use Rattle.icn_vars.specs.Worlds.{AreLiveArguments, KeepsLive, reach_of};
ghost use Rattle.icn_args.specs.RowWords.{Answers};
ghost use Rattle.icn_strfn.specs.Stopping.{LimitsRow};

use crate::defaults::or_blank;
use crate::endings::{byte_given, text};
use crate::integers::natural_number;
use crate::new_texts::{build_repeated, build_reversed};
use crate::text_arguments::{lacks_text, text_len};
use crate::trimming::trimmed_len;
use icn_args::{arg, text_of};
use icn_convert::{to_cset, to_integer};
use icn_value::Val;
use icn_vars::{Halt, Locals, ValueOutcome, World};

/// `string(x)`: the text that a value converts to; it fails where there is none. The errors are 306 and want of memory.
#[tactic(auto, using(icn_vars::proofs::KeptItems::keeps_items_refl))]
pub fn string_row<L: Locals>(w: &mut World, l: &L, args: &[Val]) -> Result<ValueOutcome, Halt>
    requires live { AreLiveArguments w.old (L.items l.now) args.now }
    ensures row { Answers w.old (L.items l.now) w.new (L.items l.now)
        (string_row (map (value_in (extent_of w.old.heap)) args.now)) (answer_of result) }
    ensures live { IsLiveAnswer (reach_of w.new (L.items l.now)) (answer_of result) }
    ensures kept { KeepsLive w.old (L.items l.now) w.new (L.items l.now) }
{
    let val = arg(args, 0);
    if lacks_text(val) {
        return Ok(ValueOutcome::Fails);
    }
    let span = text_of(w, l, val)?;
    Ok(text(span))
}

/// `ord(s)`: the byte of a text of one byte, or error 103; 205 where there is another number of bytes. Others are 306 and want
/// of memory.
#[tactic(auto, using(icn_vars::proofs::KeptItems::keeps_items_refl))]
pub fn ord_row<L: Locals>(w: &mut World, l: &L, args: &[Val]) -> Result<ValueOutcome, Halt>
    requires live { AreLiveArguments w.old (L.items l.now) args.now }
    ensures row { Answers w.old (L.items l.now) w.new (L.items l.now)
        (ord_row (map (value_in (extent_of w.old.heap)) args.now)) (answer_of result) }
    ensures live { IsLiveAnswer (reach_of w.new (L.items l.now)) (answer_of result) }
    ensures kept { KeepsLive w.old (L.items l.now) w.new (L.items l.now) }
{
    let val = arg(args, 0);
    if lacks_text(val) {
        return Err(Halt::Error(103, Some(val)));
    }
    if text_len(&w.heap, val) != 1 {
        return Err(Halt::Error(205, Some(val)));
    }
    let span = text_of(w, l, val)?;
    let byte = w.heap.bytes(span)[0];
    Ok(byte_given(byte))
}

/// `reverse(s)`: a text from its end to its start, or error 103. Others are 306 and want of memory.
#[tactic(auto, using(icn_vars::proofs::KeptItems::keeps_items_refl))]
pub fn reverse_row<L: Locals>(w: &mut World, l: &L, args: &[Val]) -> Result<ValueOutcome, Halt>
    requires live { AreLiveArguments w.old (L.items l.now) args.now }
    ensures row { Answers w.old (L.items l.now) w.new (L.items l.now)
        (reverse_row (map (value_in (extent_of w.old.heap)) args.now)) (answer_of result) }
    ensures limits { MakesNoText (arg (map (value_in (extent_of w.old.heap)) args.now) 0)
        → LimitsRow w.old (L.items l.now)
        (reverse_row (map (value_in (extent_of w.old.heap)) args.now)) result }
    ensures live { IsLiveAnswer (reach_of w.new (L.items l.now)) (answer_of result) }
    ensures kept { KeepsLive w.old (L.items l.now) w.new (L.items l.now) }
{
    let val = arg(args, 0);
    if lacks_text(val) {
        return Err(Halt::Error(103, Some(val)));
    }
    let span = text_of(w, l, val)?;
    build_reversed(w, l, span)
}

/// `repl(s, i)`: a text so many times, or error 103 or 101; 205 below 0. Others are 306 and want of memory.
#[tactic(auto, using(icn_vars::proofs::KeptItems::keeps_items_refl))]
pub fn repl_row<L: Locals>(w: &mut World, l: &L, args: &[Val]) -> Result<ValueOutcome, Halt>
    requires live { AreLiveArguments w.old (L.items l.now) args.now }
    ensures row { Answers w.old (L.items l.now) w.new (L.items l.now)
        (repl_row (map (value_in (extent_of w.old.heap)) args.now)) (answer_of result) }
    ensures limits { MakesNoText (arg (map (value_in (extent_of w.old.heap)) args.now) 0)
        → LimitsRow w.old (L.items l.now) (repl_row (map (value_in (extent_of w.old.heap)) args.now)) result }
    ensures live { IsLiveAnswer (reach_of w.new (L.items l.now)) (answer_of result) }
    ensures kept { KeepsLive w.old (L.items l.now) w.new (L.items l.now) }
{
    let val = arg(args, 0);
    let times = arg(args, 1);
    if lacks_text(val) {
        return Err(Halt::Error(103, Some(val)));
    }
    let Some(n) = to_integer(&w.heap, times) else {
        return Err(Halt::Error(101, Some(times)));
    };
    let Some(count) = natural_number(n) else {
        return Err(Halt::Error(205, Some(times)));
    };
    let span = text_of(w, l, val)?;
    build_repeated(w, l, span, count)
}

/// `trim(s, c)`: a text without the bytes at its end that a cset has, a blank where it is null; or error 103 or 104. Others are
/// 306 and want of memory.
#[tactic(auto, using(icn_vars::proofs::KeptItems::keeps_items_refl))]
pub fn trim_row<L: Locals>(w: &mut World, l: &L, args: &[Val]) -> Result<ValueOutcome, Halt>
    requires live { AreLiveArguments w.old (L.items l.now) args.now }
    ensures row { Answers w.old (L.items l.now) w.new (L.items l.now)
        (trim_row (map (value_in (extent_of w.old.heap)) args.now)) (answer_of result) }
    ensures live { IsLiveAnswer (reach_of w.new (L.items l.now)) (answer_of result) }
    ensures kept { KeepsLive w.old (L.items l.now) w.new (L.items l.now) }
{
    let val = arg(args, 0);
    let set = or_blank(arg(args, 1));
    if lacks_text(val) {
        return Err(Halt::Error(103, Some(val)));
    }
    let Some(bytes) = to_cset(&w.heap, set) else {
        return Err(Halt::Error(104, Some(set)));
    };
    let span = text_of(w, l, val)?;
    let len = trimmed_len(w.heap.bytes(span), &bytes);
    Ok(text(w.heap.part(span, 0, len as u64)))
}
