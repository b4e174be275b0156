// Why two texts are no unit.
ghost use Rattle.std.specs.Prelude.{◌≡◌};
ghost use Rattle.icn_unit.specs.OperandViews.{fault_in};
ghost use Rattle.icn_unit.specs.declared.fault.UnitStop.TheVariants.{NoMemory};

use icn_tree::Rule;
use std::alloc::{AllocError, AllocFailed};

/// Why two texts are no unit.
#[derive(Clone, Copy, Debug, PartialEq, Eq)]
pub enum UcodeFault {
    /// The texts break a rule: the first that they break, the first text before the second, and whether that is in the
    /// second.
    Broken { rule: Rule, second: bool },
    /// Memory ran out.
    NoMemory,
}

/// Why one of the two texts can't be read on.
#[derive(Clone, Copy, Debug, PartialEq, Eq)]
pub enum UnitStop {
    /// A line breaks a rule.
    Broken(Rule),
    /// Memory ran out.
    NoMemory,
}

impl UnitStop {
    /// The fault of two texts, where this is that of one of them.
    pub fn in_text(self, second: bool) -> UcodeFault
        ensures { result ≡ fault_in second self }
    {
        match self {
            UnitStop::Broken(rule) => UcodeFault::Broken { rule, second },
            UnitStop::NoMemory => UcodeFault::NoMemory,
        }
    }
}

impl From<AllocError> for UnitStop {
    ghost from_gives = { λ _ stop. stop ≡ NoMemory };

    fn from(_: AllocError) -> Self {
        UnitStop::NoMemory
    }
}

impl<T: Drop> From<AllocFailed<T>> for UnitStop {
    ghost from_gives = { λ _ stop. stop ≡ NoMemory };

    fn from(_: AllocFailed<T>) -> Self {
        UnitStop::NoMemory
    }
}
