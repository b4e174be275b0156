// Why tokens are no program.
ghost use Rattle.std.specs.Prelude.{◌≡◌};
ghost use Rattle.icont_units.specs.Faults.{of_parse, of_context};

use icn_decls::ContextFault;
use icn_parse::ParseFault;
use icn_tree::{Place, Rule};

/// Why tokens are no program.
#[derive(Clone, Copy, Debug, PartialEq, Eq)]
pub enum ProgramFault {
    /// The first rule that they break, one of S1 to S3 and C1 to C8, and where.
    Broken { rule: Rule, place: Place },
    /// Memory ran out.
    NoMemory,
}

impl From<ParseFault> for ProgramFault {
    ghost from_gives = { λ fault made. made ≡ of_parse fault };

    fn from(fault: ParseFault) -> Self {
        match fault {
            ParseFault::Broken { rule, file, line } => ProgramFault::Broken {
                rule,
                place: Place { line, file },
            },
            ParseFault::NoMemory => ProgramFault::NoMemory,
        }
    }
}

impl From<ContextFault> for ProgramFault {
    ghost from_gives = { λ fault made. made ≡ of_context fault };

    fn from(fault: ContextFault) -> Self {
        match fault {
            ContextFault::Broken { rule, file, line } => ProgramFault::Broken {
                rule,
                place: Place { line, file },
            },
            ContextFault::NoMemory => ProgramFault::NoMemory,
        }
    }
}
