// The locals of the procedure that runs.
ghost use Rattle.std.specs.Prelude.{◌≡◌, ◌<◌, List, length, slice_index_or, slice_set};

use icn_value::Val;

/// The locals of the procedure that runs, which clauses see as a list.
pub trait Locals {
    ghost use Rattle.icn_value.specs.declared.val.Val.{Val as ValData};
    ghost use Rattle.icn_value.specs.declared.val.Val.TheVariants.{Null};

    /// Their values.
    ghost items: { Self → List ValData };

    /// The value at this place.
    fn get(&self, place: u64) -> Val
        requires { place < length (items self.now) }
        ensures { result ≡ slice_index_or (items self.now) place Null };

    /// Puts another value in this place.
    fn set(&mut self, place: u64, val: Val)
        requires { place < length (items self.old) }
        ensures { items self.new ≡ slice_set (items self.old) place val };
}
