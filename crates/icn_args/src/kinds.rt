// Arguments that are files or structures.
ghost use Rattle.icn_value.specs.Store.{Setting};
ghost use Rattle.std.specs.Prelude.{ℕ, IfErr, IfOk};
ghost use Rattle.icn_defs.specs.Arguments.{file, list};
ghost use Rattle.icn_heap.specs.Extents.{Extent, IsLive, value_in};
ghost use Rattle.icn_heap.specs.Keys.{file_of};
ghost use Rattle.icn_value.specs.declared.val.Val.TheVariants.{List, Std};
ghost use Rattle.icn_args.specs.RowWords.{IsFound};
ghost use Rattle.icn_vars.specs.Stops.{IsLiveStop};

use icn_value::{File, Val};
use icn_vars::Stop;

/// The file that a value is. The error is 105 about the value.
pub fn file_of(val: Val) -> Result<File, Stop>
    ensures found { (all : Extent) (setting : Setting)
        → IsFound all (file (value_in all val)) setting setting file_of result }
    ensures live { (all : Extent) → IsLive all val → IfOk result (λ file. IsLive all (Std file)) }
    ensures stops { (all : Extent) → IsLive all val → IfErr result (IsLiveStop all) }
{
    match val {
        Val::Std(file) => Ok(file),
        _ => Err(Stop::Error(105, Some(val))),
    }
}

/// The number of the list that a value is. The error is 108 about the value.
pub fn list_of(val: Val) -> Result<u32, Stop>
    ensures found { (all : Extent) (setting : Setting)
        → IsFound all (list (value_in all val)) setting setting (λ (id : ℕ). id) result }
    ensures live { (all : Extent) → IsLive all val → IfOk result (λ id. IsLive all (List id)) }
    ensures stops { (all : Extent) → IsLive all val → IfErr result (IsLiveStop all) }
{
    match val {
        Val::List(id) => Ok(id),
        _ => Err(Stop::Error(108, Some(val))),
    }
}
