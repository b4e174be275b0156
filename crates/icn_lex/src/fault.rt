// Why lines have no tokens.
ghost use Rattle.std.specs.Prelude.{◌≡◌};
ghost use Rattle.icn_lex.specs.declared.fault.LexFault.TheVariants.{NoMemory};

use icn_tree::{Rule, SourceLine};
use std::alloc::{AllocError, AllocFailed};

/// Why lines have no tokens.
#[derive(Clone, Copy, Debug, PartialEq, Eq)]
pub enum LexFault {
    /// The lines break a rule: the first that they break from the front on, the place of the file's name among the names
    /// of the lines, and the number of the line.
    Broken { rule: Rule, file: u32, line: u32 },
    /// Memory ran out.
    NoMemory,
}

impl LexFault {
    /// A line breaks a rule.
    pub fn on(line: &SourceLine, rule: Rule) -> Self
        ensures { result ≡ LexFault.Broken rule line.now.file line.now.number }
    {
        LexFault::Broken {
            rule,
            file: line.file,
            line: line.number,
        }
    }
}

impl From<AllocError> for LexFault {
    ghost from_gives = { λ _ fault. fault ≡ NoMemory };

    fn from(_: AllocError) -> Self {
        LexFault::NoMemory
    }
}

impl<T: Drop> From<AllocFailed<T>> for LexFault {
    ghost from_gives = { λ _ fault. fault ≡ NoMemory };

    fn from(_: AllocFailed<T>) -> Self {
        LexFault::NoMemory
    }
}
