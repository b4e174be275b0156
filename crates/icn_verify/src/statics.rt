// Where the statics of each procedure begin.
ghost use Rattle.std.specs.Prelude.{◌≡◌, ◌≤◌, IfOk};
ghost use Rattle.std.specs.List.{sum_by};
ghost use Rattle.icn_code.specs.Codes.{procs_of};
ghost use Rattle.icn_profile.specs.Numbers.{most_statics};
ghost use Rattle.icn_verify.specs.FirstStatics.{first_statics_from};

use icn_code::LinkedProcedure;
use std::alloc::{AllocError, Global};

/// The number of each procedure's first static: statics are numbered procedure by procedure. The error is want of memory.
pub fn first_statics(alloc: Global, procs: &[LinkedProcedure]) -> Result<Vec<u32>, AllocError>
    requires few { sum_by (λ proc. proc.statics) (procs_of procs.now) ≤ most_statics }
    ensures { IfOk result (λ firsts. firsts.items ≡ first_statics_from 0 (procs_of procs.now)) }
{
    let mut firsts = Vec::new(alloc);
    let mut before: u32 = 0;
    for proc in procs {
        firsts.push(before)?;
        before += proc.statics;
    }
    Ok(firsts)
}
