// The functions over values of any type, and over csets and bytes.
ghost use Rattle.std.specs.Prelude.{◌≡◌, map};
ghost use Rattle.std.specs.List.{All};
ghost use Rattle.icn_value.specs.Store.{Names as NamesData};
ghost use Rattle.icn_value.specs.declared.val.Val.TheVariants.{Rec};
ghost use Rattle.icn_defs.specs.Arguments.{arg};
ghost use Rattle.icn_defs.specs.Images.{record_name, type_name};
ghost use Rattle.icn_defs.specs.Strings.{char_row, cset_row, image_row, type_row};
ghost use Rattle.icn_heap.specs.Extents.{Extent, IsLive, value_in};
ghost use Rattle.icn_heap.specs.Heaps.{extent_of, heap_of};
ghost use Rattle.icn_convert.specs.ProgramNames.{AreRecordsNamed, IsNamed};
ghost use Rattle.icn_vars.specs.Outcomes.{IsLiveAnswer, answer_of};
ghost use Rattle.icn_vars.specs.Worlds.{AreLiveArguments, KeepsLive, reach_of};
ghost use Rattle.icn_args.specs.RowWords.{Answers};

use crate::endings::{build_text, hold_text};
use crate::integers::natural_number;
use icn_args::arg;
use icn_convert::{Names, image, to_cset, to_integer};
use icn_heap::Heap;
use icn_value::Val;
use icn_vars::{Halt, Locals, ValueOutcome, World};

/// `cset(x)`: the cset that a value converts to; it fails where there is none.
pub fn cset_row<L: Locals>(w: &World, l: &L, args: &[Val]) -> Result<ValueOutcome, Halt>
    requires { All (IsLive (extent_of w.now.heap)) args.now }
    ensures row { Answers w.now (L.items l.now) w.now (L.items l.now)
        (cset_row (map (value_in (extent_of w.now.heap)) args.now)) (answer_of result) }
    ensures live { IsLiveAnswer (reach_of w.now (L.items l.now)) (answer_of result) }
{
    match to_cset(&w.heap, arg(args, 0)) {
        Some(cset) => Ok(ValueOutcome::Gives(Val::Chars(cset))),
        None => Ok(ValueOutcome::Fails),
    }
}

/// `char(i)`: the text of a byte, which costs nothing, or error 101; 205 for what is no byte. Another is want of memory.
#[tactic(auto, using(icn_vars::proofs::KeptItems::keeps_items_refl))]
pub fn char_row<L: Locals>(w: &mut World, l: &L, args: &[Val]) -> Result<ValueOutcome, Halt>
    requires live { AreLiveArguments w.old (L.items l.now) args.now }
    ensures row { Answers w.old (L.items l.now) w.new (L.items l.now)
        (char_row (map (value_in (extent_of w.old.heap)) args.now)) (answer_of result) }
    ensures live { IsLiveAnswer (reach_of w.new (L.items l.now)) (answer_of result) }
    ensures kept { KeepsLive w.old (L.items l.now) w.new (L.items l.now) }
{
    let val = arg(args, 0);
    let Some(n) = to_integer(&w.heap, val) else {
        return Err(Halt::Error(101, Some(val)));
    };
    let Some(byte) = natural_number(n) else {
        return Err(Halt::Error(205, Some(val)));
    };
    if byte >= 256 {
        return Err(Halt::Error(205, Some(val)));
    }
    hold_text(w, l, &[byte as u8])
}

/// `image(x)`: the text that shows a value. The errors are 306 and want of memory.
pub fn image_row<N: Names, L: Locals>(
    names: &N,
    w: &mut World,
    l: &L,
    args: &[Val],
) -> Result<ValueOutcome, Halt>
    requires live { AreLiveArguments w.old (L.items l.now) args.now }
    requires named { All (IsNamed (N.known names.now)) args.now }
    requires records { AreRecordsNamed (N.known names.now) (heap_of w.old.heap) }
    ensures row { Answers w.old (L.items l.now) w.new (L.items l.now)
        (image_row (N.known names.now) (map (value_in (extent_of w.old.heap)) args.now)) (answer_of result) }
    ensures live { IsLiveAnswer (reach_of w.new (L.items l.now)) (answer_of result) }
    ensures kept { KeepsLive w.old (L.items l.now) w.new (L.items l.now) }
{
    let val = first_argument(args);
    let shown = image(*w.globals.allocator(), &w.heap, names, val)?;
    build_text(w, l, &shown)
}

/// `type(x)`: the name of a value's type, which costs nothing. The error is want of memory.
pub fn type_row<N: Names, L: Locals>(
    names: &N,
    w: &mut World,
    l: &L,
    args: &[Val],
) -> Result<ValueOutcome, Halt>
    requires live { AreLiveArguments w.old (L.items l.now) args.now }
    requires records { AreRecordsNamed (N.known names.now) (heap_of w.old.heap) }
    ensures row { Answers w.old (L.items l.now) w.new (L.items l.now)
        (type_row (N.known names.now) (map (value_in (extent_of w.old.heap)) args.now)) (answer_of result) }
    ensures live { IsLiveAnswer (reach_of w.new (L.items l.now)) (answer_of result) }
    ensures kept { KeepsLive w.old (L.items l.now) w.new (L.items l.now) }
{
    let val = arg(args, 0);
    let name = type_name(&w.heap, names, val);
    hold_text(w, l, name)
}

// The first argument, which is null where it is missing.
fn first_argument(args: &[Val]) -> Val
    ensures value { (all : Extent) → value_in all result ≡ arg (map (value_in all) args.now) 0 }
    ensures live { (all : Extent) → All (IsLive all) args.now → IsLive all result }
    ensures named { (names : NamesData) → All (IsNamed names) args.now → IsNamed names result }
{
    args.first().copied().unwrap_or(Val::Null)
}

// The name of a value's type.
fn type_name<'a, N: Names>(heap: &Heap, names: &'a N, val: Val) -> &'a [u8]
    requires live { IsLive (extent_of heap.now) val }
    requires records { AreRecordsNamed (N.known names.now) (heap_of heap.now) }
    ensures { result.now
        ≡ type_name (N.known names.now) (heap_of heap.now) (value_in (extent_of heap.now) val) }
{
    match val {
        Val::Null => b"null",
        Val::Integer(_) => b"integer",
        Val::Text(_) => b"string",
        Val::Chars(_) => b"cset",
        Val::Std(_) => b"file",
        Val::Proc(_) => b"procedure",
        Val::Rec(id) => record_name(heap, names, id),
        Val::List(_) => b"list",
        Val::Set(_) => b"set",
        Val::Table(_) => b"table",
        Val::Coexp(_) => b"co-expression",
    }
}

// The name of a record.
#[tactic(auto, using(crate::proofs::NamedRecords::kind_named))]
fn record_name<'a, N: Names>(heap: &Heap, names: &'a N, id: u32) -> &'a [u8]
    requires live { IsLive (extent_of heap.now) (Rec id) }
    requires records { AreRecordsNamed (N.known names.now) (heap_of heap.now) }
    ensures { result.now ≡ record_name (N.known names.now) (heap_of heap.now) id }
{
    names.rec(heap.kind(id))
}
