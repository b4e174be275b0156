// The limits of a run.
ghost use Rattle.std.specs.Prelude.{◌≡◌, ◌≤◌};
ghost use Rattle.icn_profile.specs.Numbers.{most_cells, most_levels, most_strings};

use icn_profile::{DEFAULT_CELLS, DEFAULT_LEVELS, DEFAULT_STRINGS, MOST_TURNS};

/// What a run may use.
#[derive(Clone, Copy, Debug, PartialEq, Eq)]
pub struct Limits {
    /// How many turns it may make.
    pub turns: u64,
    /// How many bytes of strings it may build, up to 2 ^ 40.
    pub strings: u64,
    /// How many cells of structures it may make, up to 2 ^ 32 - 1.
    pub cells: u64,
    /// How deep procedures may call one another, from 1 to 2 ^ 32 - 1.
    pub levels: u64,
    ghost few_strings: { strings ≤ most_strings },
    ghost few_cells: { cells ≤ most_cells },
    ghost some_levels: { 1 ≤ levels },
    ghost few_levels: { levels ≤ most_levels },
}

impl Limits {
    ghost use Rattle.icn_value.specs.Limited.{default_limits, limits_of};

    /// The limits where none are said. It takes no memory.
    pub fn standard() -> Self
        ensures { limits_of result ≡ default_limits }
    {
        Limits {
            turns: MOST_TURNS,
            strings: DEFAULT_STRINGS,
            cells: DEFAULT_CELLS,
            levels: DEFAULT_LEVELS,
        }
    }
}
