// The function over the error that is kept.
ghost use Rattle.std.specs.List.{All};
ghost use Rattle.icn_defs.specs.ErrorRows.{errorclear_row};
ghost use Rattle.icn_heap.specs.Extents.{IsLive};
ghost use Rattle.icn_heap.specs.Heaps.{extent_of};
ghost use Rattle.icn_vars.specs.Outcomes.{IsLiveAnswer, answer_of};
ghost use Rattle.icn_vars.specs.Worlds.{KeepsLive, reach_of};
ghost use Rattle.icn_args.specs.RowWords.{Answers};

use icn_value::Val;
use icn_vars::{Halt, Locals, ValueOutcome, World};

/// `errorclear()`: no error is kept any more. There is no error.
#[tactic(auto, using(icn_vars::proofs::KeptItems::keeps_items_refl))]
pub fn errorclear_row<L: Locals>(w: &mut World, _l: &L) -> Result<ValueOutcome, Halt>
    requires locals { All (IsLive (extent_of w.old.heap)) (L.items _l.now) }
    ensures row { Answers w.old (L.items _l.now) w.new (L.items _l.now) errorclear_row (answer_of result) }
    ensures live { IsLiveAnswer (reach_of w.new (L.items _l.now)) (answer_of result) }
    ensures kept { KeepsLive w.old (L.items _l.now) w.new (L.items _l.now) }
{
    w.words.kept = None;
    Ok(ValueOutcome::Gives(Val::Null))
}
