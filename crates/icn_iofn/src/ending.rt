// Ending the program.
ghost use Rattle.std.specs.Prelude.{◌≡◌, map};
ghost use Rattle.std.specs.List.{All};
ghost use Rattle.icn_value.specs.Store.{Setting};
ghost use Rattle.icn_defs.specs.InputOutput as rows;
ghost use Rattle.icn_heap.specs.Extents.{IsLive, value_in};
ghost use Rattle.icn_heap.specs.Heaps.{extent_of};
ghost use Rattle.icn_vars.specs.Outcomes.{ComesToAnswer, IsLiveAnswer, answer_of};
ghost use Rattle.icn_vars.specs.Worlds.{Reach};

use crate::arguments::integer_arg;
use icn_heap::Heap;
use icn_value::Val;
use icn_vars::{Halt, ValueOutcome};

/// `exit(i)`: the program ends with the status `i` modulo 256, or 0. The error is 101.
pub fn exit(heap: &Heap, vals: &[Val]) -> Result<ValueOutcome, Halt>
    requires { All (IsLive (extent_of heap.now)) vals.now }
    ensures row { (setting : Setting) → ComesToAnswer (extent_of heap.now)
        (rows.exit_row (map (value_in (extent_of heap.now)) vals.now)) setting setting (answer_of result) }
    ensures live { (reach : Reach) → reach.extent ≡ extent_of heap.now
        → IsLiveAnswer reach (answer_of result) }
{
    let n = integer_arg(heap, 0, vals, 0)?;
    Err(Halt::Ends(n.rem_euclid(256) as u8))
}
