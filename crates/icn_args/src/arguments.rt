// Arguments by their places, and the values of items.
ghost use Rattle.std.specs.Prelude.{◌≡◌, ◌++◌, ◌∷◌, [], map, IfErr, IfOk};
ghost use Rattle.std.specs.List.{All};
ghost use Rattle.icn_value.specs.Store.{Outside};
ghost use Rattle.icn_defs.specs.Arguments.{arg, value_or};
ghost use Rattle.icn_defs.specs.Conversions.{is_null};
ghost use Rattle.icn_defs.specs.ReadAndAssign.{the_values};
ghost use Rattle.icn_heap.specs.Extents.{Extent, IsLive, value_in};
ghost use Rattle.icn_heap.specs.Heaps.{extent_of};
ghost use Rattle.icn_vars.specs.Stops.{IsLiveStop};
ghost use Rattle.icn_vars.specs.Worlds.{IsLiveItem, item_in, reach_of, setting_of};
ghost use Rattle.icn_args.specs.RowWords.{IsFound};

use icn_value::{Item, Val};
use icn_vars::{Locals, Stop, World, deref};
use std::alloc::AllocError;

/// The argument at a place, counted from 0, which is null where it is missing.
pub fn arg(args: &[Val], place: usize) -> Val
    ensures value { (all : Extent) → value_in all result ≡ arg (map (value_in all) args.now) place }
    ensures live { (all : Extent) → All (IsLive all) args.now → IsLive all result }
{
    args.get(place).copied().unwrap_or(Val::Null)
}

/// Whether a value is null.
pub fn is_null(val: Val) -> bool
    ensures { (all : Extent) → result ≡ is_null (value_in all val) }
{
    matches!(val, Val::Null)
}

/// A value, or another one where it is null.
pub fn value_or(default: Val, val: Val) -> Val
    ensures value { (all : Extent)
        → value_in all result ≡ value_or (value_in all default) (value_in all val) }
    ensures live { (all : Extent) → IsLive all default → IsLive all val → IsLive all result }
{
    match val {
        Val::Null => default,
        _ => val,
    }
}

/// The values of items, from the first on. The errors are those of reading one, and want of memory.
pub fn values_of<L: Locals>(w: &World, l: &L, items: &[Item]) -> Result<Vec<Val>, Stop>
    requires locals { All (IsLive (extent_of w.now.heap)) (L.items l.now) }
    requires live { All (IsLiveItem (reach_of w.now (L.items l.now))) items.now }
    ensures live { IfOk result (λ vals. All (IsLive (extent_of w.now.heap)) vals.items) }
    ensures stops { IfErr result (IsLiveStop (extent_of w.now.heap)) }
    ensures found { (outside : Outside)
        → IsFound (extent_of w.now.heap) (the_values (map (item_in (extent_of w.now.heap)) items.now))
        (setting_of outside w.now (L.items l.now)) (setting_of outside w.now (L.items l.now))
        (λ vals. map (value_in (extent_of w.now.heap)) vals.items) result }
{
    let mut vals = Vec::new(*w.globals.allocator());
    let mut rest = items;
    while let Some((first, others)) = rest.split_first() {
        let val = deref(w, l, *first)?;
        add_value(&mut vals, val)?;
        rest = others;
    }
    Ok(vals)
}

// Adds a value.
fn add_value(vals: &mut Vec<Val>, val: Val) -> Result<(), AllocError>
    ensures { IfOk result (λ done. vals.new.items ≡ vals.old.items ++ val ∷ []) }
{
    vals.push(val)?;
    Ok(())
}
