// The elements at the ends of a list.
ghost use Rattle.std.specs.Prelude.{◌≡◌, map};
ghost use Rattle.icn_value.specs.Store.{Outside};
ghost use Rattle.icn_defs.specs.Structures.{get_row, pull_row};
ghost use Rattle.icn_heap.specs.Extents.{value_in};
ghost use Rattle.icn_heap.specs.Heaps.{extent_of, heap_of};
ghost use Rattle.icn_vars.specs.Outcomes.{IsLiveAnswer, answer_of};
ghost use Rattle.icn_vars.specs.Worlds.{AreLiveArguments, KeepsLive, reach_of, setting_of};
ghost use Rattle.icn_args.specs.RowWords.{Answers};

use icn_args::arg;
use icn_value::Val;
use icn_vars::{Halt, Locals, ValueOutcome, World};

/// `get(L)` and `pop(L)`: takes the element at the left of a list, and fails where it is empty.
#[tactic(auto, using(icn_vars::proofs::GrowingWorlds::grows))]
pub fn get<L: Locals>(w: &mut World, l: &L, args: &[Val]) -> Result<ValueOutcome, Halt>
    requires live { AreLiveArguments w.old (L.items l.now) args.now }
    ensures row { Answers w.old (L.items l.now) w.new (L.items l.now)
        (get_row (map (value_in (extent_of w.old.heap)) args.now)) (answer_of result) }
    ensures live { IsLiveAnswer (reach_of w.new (L.items l.now)) (answer_of result) }
    ensures kept { KeepsLive w.old (L.items l.now) w.new (L.items l.now) }
{
    let list = arg(args, 0);
    match list {
        Val::List(id) => match w.heap.get(id) {
            Some(val) => Ok(ValueOutcome::Gives(val)),
            None => Ok(ValueOutcome::Fails),
        },
        _ => Err(Halt::Error(108, Some(list))),
    }
}

/// `pull(L)`: takes the element at the right of a list, and fails where it is empty.
#[tactic(auto, using(icn_vars::proofs::GrowingWorlds::grows))]
pub fn pull<L: Locals>(w: &mut World, l: &L, args: &[Val]) -> Result<ValueOutcome, Halt>
    requires live { AreLiveArguments w.old (L.items l.now) args.now }
    ensures row { Answers w.old (L.items l.now) w.new (L.items l.now)
        (pull_row (map (value_in (extent_of w.old.heap)) args.now)) (answer_of result) }
    ensures live { IsLiveAnswer (reach_of w.new (L.items l.now)) (answer_of result) }
    ensures kept { KeepsLive w.old (L.items l.now) w.new (L.items l.now) }
{
    let list = arg(args, 0);
    match list {
        Val::List(id) => match w.heap.pull(id) {
            Some(val) => Ok(ValueOutcome::Gives(val)),
            None => Ok(ValueOutcome::Fails),
        },
        _ => Err(Halt::Error(108, Some(list))),
    }
}
