// Errors that become failure.
ghost use Rattle.std.specs.Prelude.{◌≡◌, false, true, List, IfSome};
ghost use Rattle.icn_value.specs.declared.val.Val.{Val};
ghost use Rattle.std.specs.Option.{option_map};
ghost use Rattle.icn_defs.specs.Errors.{ends_run, is_fatal, one_less, with_kept};
ghost use Rattle.icn_defs.specs.RowFacts.{is_error_number};
ghost use Rattle.icn_heap.specs.Extents.{IsLive, value_in};
ghost use Rattle.icn_heap.specs.Heaps.{extent_of};
ghost use Rattle.icn_vars.specs.Worlds.{KeepsItems, reach_of, world_of};

use crate::words::HeldError;
use crate::world::World;
use icn_value::Val;

// Whether an error ends the run whatever `&error` is.
fn is_fatal(number: u16) -> bool
    ensures { result ≡ is_fatal number }
{
    number == 117 || (number == 301 || (number == 306 || number == 307))
}

// Whether an error ends the run, where `&error` is this.
fn ends_run(number: u16, count: i64) -> bool
    ensures { result ≡ ends_run number count }
{
    count == 0 || is_fatal(number)
}

// One less, but that the least integer stays.
fn one_less(count: i64) -> i64
    ensures { result ≡ one_less count }
{
    if count > i64::MIN { count - 1 } else { count }
}

/// An error ends the run, which `true` says; or it is kept, and `&error` is lowered. This is the one place where that is decided.
/// The number must be that of an error, where it is kept.
#[tactic(auto, using(crate::proofs::KeptItems::keeps_items_refl))]
pub fn ends_by(w: &mut World, number: u16, value: Option<Val>) -> bool
    requires value { IfSome value (IsLive (extent_of w.old.heap)) }
    requires known { ends_run number w.old.words.error ≡ false → is_error_number number ≡ true }
    ensures ends { result ≡ ends_run number w.old.words.error }
    ensures stays { result ≡ true → w.new ≡ w.old }
    ensures heap { w.new.heap ≡ w.old.heap }
    ensures items { (locals : List Val) → KeepsItems (reach_of w.old locals) (reach_of w.new locals) }
    ensures kept { result ≡ false → world_of w.new
        ≡ with_kept number (option_map (value_in (extent_of w.old.heap)) value) (world_of w.old) }
{
    if ends_run(number, w.words.error) {
        return true;
    }
    w.words.error = one_less(w.words.error);
    w.words.kept = Some(HeldError { number, value });
    false
}
