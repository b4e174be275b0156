// The world of a case: its globals are what calls gave, its statics the values of the words of a call.
ghost use Rattle.std.specs.Prelude.{◌≡◌, ◌∷◌, ◌<◌, [], length, slice_index_or, IfOk, OnOk};
ghost use Rattle.icn_value.specs.declared.val.Val.TheVariants.{Null};
ghost use Rattle.icn_heap.specs.Extents.{IsLive, value_in};
ghost use Rattle.icn_heap.specs.Heaps.{extent_of};
ghost use Rattle.law_names.specs.NamedSettings.{ValueNamed};
ghost use Rattle.test_rows.specs.Ready.{IsReadySetting};

use icn_convert::Names;
use icn_heap::Heap;
use icn_structfn::new_record;
use icn_value::{Limits, Val};
use icn_vars::{Stop, World};
use std::alloc::{AllocError, Global};
use test_values::Slots;

/// A local that is null. `AllocError` is want of memory.
pub fn one_local(alloc: Global) -> Result<Slots, AllocError>
    ensures { IfOk result (λ slots. slots.vals.items ≡ Null ∷ []) }
{
    let mut vals = Vec::new(alloc);
    vals.push(Val::Null)?;
    Ok(Slots { vals })
}

/// A world that has a record, of 7 and 8, as its one global. The error is that of a limit, or want of memory.
pub fn start<N: Names>(alloc: Global, names: &N, l: &Slots) -> Result<World, Stop>
    requires records { 0 < length (N.known names.now).records }
    requires locals { l.now.vals.items ≡ Null ∷ [] }
    ensures { IfOk result (λ w. IsReadySetting (N.known names.now) w l.now.vals.items) }
{
    let mut w = empty(alloc, names, l)?;
    let rec = new_record(&mut w, l, 0, &[Val::Integer(7), Val::Integer(8)])?;
    keep(&mut w, l, names, rec)?;
    Ok(w)
}

// A world in which nothing is made.
#[tactic(auto, using(crate::proofs::Named::new_ready))]
fn empty<N: Names>(alloc: Global, _names: &N, l: &Slots) -> Result<World, AllocError>
    requires { l.now.vals.items ≡ Null ∷ [] }
    ensures { IfOk result (λ w. IsReadySetting (N.known _names.now) w l.now.vals.items) }
{
    let limits = Limits {
        turns: 0,
        strings: 100,
        cells: 100,
        levels: 1,
    };
    let heap = Heap::new(alloc, limits)?;
    Ok(World::new(heap, Vec::new(alloc), Vec::new(alloc)))
}

/// Keeps a value by the next number. `AllocError` is want of memory.
#[tactic(auto, using(test_values::proofs::AddedVariables::global_added, crate::proofs::Named::global_ready))]
pub fn keep<N: Names>(w: &mut World, l: &Slots, _names: &N, val: Val) -> Result<(), AllocError>
    requires live { IsLive (extent_of w.old.heap) val }
    requires named { ValueNamed (N.known _names.now) (value_in (extent_of w.old.heap) val) }
    requires ready { IsReadySetting (N.known _names.now) w.old l.now.vals.items }
    ensures { OnOk result (IsReadySetting (N.known _names.now) w.new l.now.vals.items) }
{
    w.globals.push(val)?;
    Ok(())
}

/// Takes the values of all words away.
#[tactic(auto, using(test_values::proofs::AddedVariables::statics_cleared, crate::proofs::Named::cleared_ready))]
pub fn no_words<N: Names>(w: &mut World, l: &Slots, _names: &N)
    requires { IsReadySetting (N.known _names.now) w.old l.now.vals.items }
    ensures { IsReadySetting (N.known _names.now) w.new l.now.vals.items }
{
    w.statics.clear();
}

/// Adds the value of a word. `AllocError` is want of memory.
#[tactic(auto, using(test_values::proofs::AddedVariables::static_added, crate::proofs::Named::static_ready))]
pub fn add_value<N: Names>(w: &mut World, l: &Slots, _names: &N, val: Val) -> Result<(), AllocError>
    requires live { IsLive (extent_of w.old.heap) val }
    requires named { ValueNamed (N.known _names.now) (value_in (extent_of w.old.heap) val) }
    requires ready { IsReadySetting (N.known _names.now) w.old l.now.vals.items }
    ensures { OnOk result (IsReadySetting (N.known _names.now) w.new l.now.vals.items) }
{
    w.statics.push(val)?;
    Ok(())
}

/// One of some values by its place, or null.
pub fn value_at(vals: &[Val], place: usize) -> Val
    ensures { result ≡ slice_index_or vals.now place Null }
{
    if place < vals.len() {
        vals[place]
    } else {
        Val::Null
    }
}
