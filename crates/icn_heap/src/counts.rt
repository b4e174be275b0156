// How many results each co-expression gave.
ghost use Rattle.std.specs.Prelude.{◌≡◌, ◌+◌, ◌<◌, ◌^◌, ◌++◌, ◌∷◌, [], OnOk, OnErr, slice_set, slice_index};
ghost use Rattle.std.specs.Vec.{vec_len};

use std::alloc::AllocError;

/// Adds a count of 0. `AllocError` is want of memory, and all is as it was then.
pub fn add_count(counts: &mut Vec<u64>) -> Result<(), AllocError>
    ensures ok { OnOk result (counts.new.items ≡ counts.old.items ++ 0 ∷ []) }
    ensures err { OnErr result (counts.new.items ≡ counts.old.items) }
{
    counts.push(0)?;
    Ok(())
}

/// Raises a count by one.
pub fn raise_at(counts: &mut Vec<u64>, id: u32)
    requires there { id < vec_len counts.old }
    requires small { slice_index counts.old.items id + 1 < 2 ^ 64 }
    ensures { counts.new.items ≡ slice_set counts.old.items id (slice_index counts.old.items id + 1) }
{
    counts[id as usize] += 1;
}

/// How many results the co-expression of this number gave.
pub fn count_of_results(counts: &Vec<u64>, id: u32) -> u64
    requires { id < vec_len counts.now }
    ensures { result ≡ slice_index counts.now.items id }
{
    counts[id as usize]
}
