// The functions over procedures: `proc` and `args`.
ghost use Rattle.std.specs.Prelude.{◌≡◌, map};
ghost use Rattle.std.specs.List.{All};
ghost use Rattle.icn_value.specs.Store.{Names as NamesData};
ghost use Rattle.icn_defs.specs.Arguments.{arg};
ghost use Rattle.icn_defs.specs.NamedValues.{args_row, proc_row, procedure_of};
ghost use Rattle.icn_heap.specs.Extents.{Extent, IsLive, value_in};
ghost use Rattle.icn_heap.specs.Heaps.{extent_of};
ghost use Rattle.icn_convert.specs.ProgramNames.{IsNamed};
ghost use Rattle.icn_vars.specs.Outcomes.{IsLiveAnswer, answer_of};
ghost use Rattle.icn_vars.specs.Worlds.{AreLiveArguments, reach_of};
ghost use Rattle.icn_args.specs.RowWords.{Answers};

use icn_convert::Names;
use icn_heap::Heap;
use icn_invoke::find;
use icn_value::Val;
use icn_vars::{Halt, Locals, ValueOutcome, World};

/// `proc(x)`: a procedure, a constructor or a function itself, and for a text what it names. It fails for any other value, and for a
/// text that names nothing. There is no error.
pub fn proc_row<L: Locals, N: Names>(
    names: &N,
    w: &World,
    l: &L,
    args: &[Val],
) -> Result<ValueOutcome, Halt>
    requires live { AreLiveArguments w.now (L.items l.now) args.now }
    ensures row { Answers w.now (L.items l.now) w.now (L.items l.now)
        (proc_row (N.known names.now) (map (value_in (extent_of w.now.heap)) args.now)) (answer_of result) }
    ensures live { IsLiveAnswer (reach_of w.now (L.items l.now)) (answer_of result) }
{
    let val = first_argument(args);
    match procedure_of(&w.heap, names, val) {
        Some(number) => Ok(ValueOutcome::Gives(Val::Proc(number))),
        None => Ok(ValueOutcome::Fails),
    }
}

// The procedure that a value is, or that a text names.
fn procedure_of<N: Names>(heap: &Heap, names: &N, val: Val) -> Option<u32>
    requires { IsLive (extent_of heap.now) val }
    ensures { result ≡ procedure_of (N.known names.now) (value_in (extent_of heap.now) val) }
{
    match val {
        Val::Proc(number) => Some(number),
        Val::Text(span) => find(names, heap.bytes(span)),
        Val::Null => None,
        Val::Integer(_) => None,
        Val::Chars(_) => None,
        Val::Std(_) => None,
        Val::Rec(_) => None,
        Val::List(_) => None,
        Val::Set(_) => None,
        Val::Table(_) => None,
        Val::Coexp(_) => None,
    }
}

/// `args(p)`: how many arguments a procedure, a constructor or a function takes, below 0 where it collects them. The error is 106 for
/// another value.
pub fn args_row<L: Locals, N: Names>(
    names: &N,
    w: &World,
    l: &L,
    args: &[Val],
) -> Result<ValueOutcome, Halt>
    requires live { AreLiveArguments w.now (L.items l.now) args.now }
    requires named { All (IsNamed (N.known names.now)) args.now }
    ensures row { Answers w.now (L.items l.now) w.now (L.items l.now)
        (args_row (N.known names.now) (map (value_in (extent_of w.now.heap)) args.now)) (answer_of result) }
    ensures live { IsLiveAnswer (reach_of w.now (L.items l.now)) (answer_of result) }
{
    let val = first_argument(args);
    match val {
        Val::Proc(number) => Ok(ValueOutcome::Gives(Val::Integer(names.arguments(number)))),
        _ => Err(Halt::Error(106, Some(val))),
    }
}

// The first argument, which is null where it is missing.
fn first_argument(args: &[Val]) -> Val
    ensures value { (all : Extent) → value_in all result ≡ arg (map (value_in all) args.now) 0 }
    ensures live { (all : Extent) → All (IsLive all) args.now → IsLive all result }
    ensures named { (names : NamesData) → All (IsNamed names) args.now → IsNamed names result }
{
    args.first().copied().unwrap_or(Val::Null)
}
