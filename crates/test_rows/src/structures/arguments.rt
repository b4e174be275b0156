// The arguments of a call, which are the statics of a world.
ghost use Rattle.std.specs.Prelude.{◌≡◌, ◌<◌, [], length, slice_index_or, IfOk, OnOk};
ghost use Rattle.icn_value.specs.declared.val.Val.TheVariants.{Null};
ghost use Rattle.icn_heap.specs.Extents.{IsLive, value_in};
ghost use Rattle.icn_heap.specs.Heaps.{extent_of};
ghost use Rattle.law_names.specs.NamedSettings.{ValueNamed};
ghost use Rattle.test_rows.specs.Naming.{AllNamed};
ghost use Rattle.test_values.specs.OneRecord.{one_record};

use icn_heap::Heap;
use icn_text::read_integer;
use icn_value::{Limits, Val};
use icn_vars::World;
use std::alloc::{AllocError, Global};
use test_values::{Slots, plain};

/// A world in which nothing is made, where so many cells may be charged. `AllocError` is want of memory.
#[tactic(auto, using(crate::proofs::Worlds::new_named))]
pub fn world(alloc: Global, cells: u64) -> Result<World, AllocError>
    ensures { IfOk result (λ w. AllNamed w []) }
{
    let limits = Limits {
        turns: 0,
        strings: 0,
        cells: cells.min(4294967295),
        levels: 1,
    };
    let heap = Heap::new(alloc, limits)?;
    Ok(World::new(heap, Vec::new(alloc), Vec::new(alloc)))
}

/// Takes the arguments away.
#[tactic(auto, using(test_values::proofs::AddedVariables::statics_cleared, crate::proofs::Worlds::cleared_named))]
pub fn no_arguments(w: &mut World, l: &Slots)
    requires { AllNamed w.old l.now.vals.items }
    ensures { AllNamed w.new l.now.vals.items }
{
    w.statics.clear();
}

/// Adds the argument of a word. `AllocError` is want of memory.
pub fn add_word(w: &mut World, l: &Slots, word: &[u8]) -> Result<(), AllocError>
    requires locals { l.now.vals.items ≡ [] }
    requires named { AllNamed w.old l.now.vals.items }
    ensures { OnOk result (AllNamed w.new l.now.vals.items) }
{
    match word.split_first() {
        None => Ok(()),
        Some((b'"', rest)) => add_text(w, l, rest),
        Some((b'$', rest)) => {
            let val = earlier(w, l, rest);
            add_value(w, l, val)
        }
        _ => add_value(w, l, plain(word)),
    }
}

// What an earlier call gave, by its number.
fn earlier(w: &World, _l: &Slots, digits: &[u8]) -> Val
    requires { AllNamed w.now _l.now.vals.items }
    ensures live { IsLive (extent_of w.now.heap) result }
    ensures named { ValueNamed one_record (value_in (extent_of w.now.heap) result) }
{
    match read_integer(digits) {
        Ok(n) => {
            let place = n.unsigned_abs() as usize;
            if place < w.globals.len() {
                value_at(&w.globals, place)
            } else {
                Val::Null
            }
        }
        Err(_) => Val::Null,
    }
}

fn value_at(vals: &[Val], place: usize) -> Val
    requires { place < length vals.now }
    ensures { result ≡ slice_index_or vals.now place Null }
{
    vals[place]
}

// Adds the text of these bytes.
#[tactic(auto, using(icn_vars::proofs::GrowingWorlds::grows))]
fn add_text(w: &mut World, l: &Slots, bytes: &[u8]) -> Result<(), AllocError>
    requires locals { l.now.vals.items ≡ [] }
    requires named { AllNamed w.old l.now.vals.items }
    ensures { OnOk result (AllNamed w.new l.now.vals.items) }
{
    let span = w.heap.hold(bytes)?;
    add_value(w, l, Val::Text(span))
}

/// Adds an argument. `AllocError` is want of memory.
#[tactic(auto, using(test_values::proofs::AddedVariables::static_added, crate::proofs::Worlds::static_named))]
pub fn add_value(w: &mut World, l: &Slots, val: Val) -> Result<(), AllocError>
    requires live { IsLive (extent_of w.old.heap) val }
    requires named { ValueNamed one_record (value_in (extent_of w.old.heap) val) }
    requires all { AllNamed w.old l.now.vals.items }
    ensures { OnOk result (AllNamed w.new l.now.vals.items) }
{
    w.statics.push(val)?;
    Ok(())
}
