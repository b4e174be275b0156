// Why a file breaks a context rule.
ghost use Rattle.icn_decls.specs.declared.fault.ContextFault.TheVariants.{Broken as Breaks, NoMemory};
ghost use Rattle.std.specs.Prelude.{◌≡◌};

use icn_tree::{Place, Rule};
use std::alloc::{AllocError, AllocFailed};

/// Why a file breaks a context rule.
#[derive(Clone, Copy, Debug, PartialEq, Eq)]
pub enum ContextFault {
    /// The first rule that the file breaks, the place of the file's name among the names of the lines, and the number of
    /// the line.
    Broken { rule: Rule, file: u32, line: u32 },
    /// Memory ran out.
    NoMemory,
}

impl From<AllocError> for ContextFault {
    ghost from_gives = { λ _ fault. fault ≡ NoMemory };

    fn from(_: AllocError) -> Self {
        ContextFault::NoMemory
    }
}

impl<T: Drop> From<AllocFailed<T>> for ContextFault {
    ghost from_gives = { λ _ fault. fault ≡ NoMemory };

    fn from(_: AllocFailed<T>) -> Self {
        ContextFault::NoMemory
    }
}

/// A rule that is broken at a place.
#[derive(Clone, Copy, Debug, PartialEq, Eq)]
pub struct Broken {
    pub rule: Rule,
    pub place: Place,
}

impl Broken {
    /// This rule is broken at this place.
    pub fn at(place: Place, rule: Rule) -> Self
        ensures rule { result.rule ≡ rule }
        ensures place { result.place ≡ place }
    {
        Broken { rule, place }
    }
}

impl From<Broken> for ContextFault {
    ghost from_gives = { λ broken fault. fault ≡ Breaks broken.rule broken.place.file broken.place.line };

    fn from(broken: Broken) -> Self {
        ContextFault::Broken {
            rule: broken.rule,
            file: broken.place.file,
            line: broken.place.line,
        }
    }
}
