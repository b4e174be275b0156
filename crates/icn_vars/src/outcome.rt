// What applying an operation or a function comes to.
ghost use Rattle.std.specs.Prelude.{◌≡◌};
ghost use Rattle.icn_vars.specs.Outcomes.{outcome_of};

use icn_value::{Item, Residual, Val};

/// What a row gives.
#[derive(Clone, Copy, Debug, PartialEq, Eq)]
pub enum Outcome {
    /// It fails.
    Fails,
    /// It gives an item, and no other.
    Gives(Item),
    /// It gives an item, and may be resumed.
    Suspends(Item, Residual),
}

/// What a row comes to that gives a value at most, and is not resumed: 48 bytes, where an `Outcome` has 320.
#[derive(Clone, Copy, Debug, PartialEq, Eq)]
pub enum ValueOutcome {
    /// It fails.
    Fails,
    /// It gives a value, and no other.
    Gives(Val),
}

impl ValueOutcome {
    /// The same as an outcome that could suspend.
    pub fn outcome(self) -> Outcome
        ensures { result ≡ outcome_of self }
    {
        match self {
            ValueOutcome::Fails => Outcome::Fails,
            ValueOutcome::Gives(val) => Outcome::Gives(Item::Val(val)),
        }
    }
}

/// Why a row gives nothing, and the run is over.
#[derive(Clone, Copy, Debug, PartialEq, Eq)]
pub enum Halt {
    /// A run-time error by its number, with the value that it is about, if there is one.
    Error(u16, Option<Val>),
    /// The program ends, with this status.
    Ends(u8),
    /// A reading failed.
    ReadFault,
    /// A writing failed.
    WriteFault,
    /// The store of files failed.
    FileFault,
    /// There was no memory.
    NoMemory,
}
