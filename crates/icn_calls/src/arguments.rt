// Arguments for places.
ghost use Rattle.std.specs.Prelude.{◌≡◌, ◌++◌, OnOk, length, replicate};
ghost use Rattle.icn_value.specs.declared.val.Val.TheVariants.{Null};
ghost use Rattle.icn_calls.specs.Calling.{values_for};

use icn_value::Val;
use std::alloc::AllocError;

// How many values there are.
fn length_of(vals: &[Val]) -> usize
    ensures { result ≡ length vals.now }
{
    vals.len()
}

/// Cuts values for so many places, or puts nulls behind them. The error is want of memory.
pub fn fit(vals: &mut Vec<Val>, count: usize) -> Result<(), AllocError>
    ensures { OnOk result (vals.new.items ≡ values_for count vals.old.items) }
{
    vals.truncate(count);
    while length_of(vals) < count {
        vals.push(Val::Null)?;
    }
    Ok(())
}

/// Puts so many nulls behind values. The error is want of memory.
pub fn add_nulls(vals: &mut Vec<Val>, count: u32) -> Result<(), AllocError>
    ensures { OnOk result (vals.new.items ≡ vals.old.items ++ replicate count Null) }
{
    for i in 0..count {
        vals.push(Val::Null)?;
    }
    Ok(())
}
