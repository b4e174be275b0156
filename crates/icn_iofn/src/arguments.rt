// The arguments of `exit`, `read` and `reads`.
ghost use Rattle.std.specs.Prelude.{ℕ, ℤ, IfErr, IfOk, map};
ghost use Rattle.std.specs.List.{All};
ghost use Rattle.icn_value.specs.Store.{Setting};
ghost use Rattle.icn_value.specs.Values.{Input, Integer, Std};
ghost use Rattle.icn_value.specs.declared.val.Val.TheVariants.{Std as HeldStd};
ghost use Rattle.icn_defs.specs.Arguments.{arg_or, file, integer};
ghost use Rattle.icn_heap.specs.Extents.{Extent, IsLive, value_in};
ghost use Rattle.icn_heap.specs.Heaps.{extent_of};
ghost use Rattle.icn_heap.specs.Keys as keys;
ghost use Rattle.icn_vars.specs.Stops.{IsLiveStop};
ghost use Rattle.icn_args.specs.RowWords.{IsFound};
ghost use Rattle.icn_iofn.specs.ReadParts.{count_read, positive};

use icn_args::{arg, file_of, integer_of, natural_of, value_or};
use icn_heap::Heap;
use icn_value::{File, Val};
use icn_vars::Stop;

/// The file that is the first argument, or the input. The error is 105.
pub fn file_arg(vals: &[Val]) -> Result<File, Stop>
    ensures found { (all : Extent) (setting : Setting) → IsFound all
        (file (arg_or (Std Input) (map (value_in all) vals.now) 0)) setting setting keys.file_of result }
    ensures live { (all : Extent) → All (IsLive all) vals.now → IfOk result
        (λ file. IsLive all (HeldStd file)) }
    ensures stops { (all : Extent) → All (IsLive all) vals.now → IfErr result (IsLiveStop all) }
{
    file_of(value_or(Val::Std(File::Input), arg(vals, 0)))
}

/// The integer that an argument is or converts to, or another one. The error is 101.
pub fn integer_arg(heap: &Heap, default: i64, vals: &[Val], place: usize) -> Result<i64, Stop>
    requires { All (IsLive (extent_of heap.now)) vals.now }
    ensures found { (setting : Setting) → IsFound (extent_of heap.now) (integer (arg_or (Integer default)
        (map (value_in (extent_of heap.now)) vals.now) place)) setting setting (λ (n : ℤ). n) result }
    ensures stops { IfErr result (IsLiveStop (extent_of heap.now)) }
{
    integer_of(heap, value_or(Val::Integer(default), arg(vals, place)))
}

/// How many bytes `reads` asks for. The errors are 101, and 205 about a number that is not above 0.
pub fn count_arg(heap: &Heap, vals: &[Val]) -> Result<u64, Stop>
    requires { All (IsLive (extent_of heap.now)) vals.now }
    ensures found { (setting : Setting) → IsFound (extent_of heap.now)
        (count_read (map (value_in (extent_of heap.now)) vals.now)) setting setting (λ (n : ℕ). n) result }
    ensures stops { IfErr result (IsLiveStop (extent_of heap.now)) }
{
    let n = integer_arg(heap, 1, vals, 1)?;
    positive(n, arg(vals, 1))
}

// A number above 0. The error is 205 about the value that it comes from.
fn positive(n: i64, val: Val) -> Result<u64, Stop>
    ensures found { (all : Extent) (setting : Setting)
        → IsFound all (positive n (value_in all val)) setting setting (λ (n : ℕ). n) result }
    ensures stops { (all : Extent) → IsLive all val → IfErr result (IsLiveStop all) }
{
    let count = natural_of(n, val)?;
    if count == 0 {
        return Err(Stop::Error(205, Some(val)));
    }
    Ok(count)
}
