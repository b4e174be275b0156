// Why tokens have no tree that breaks no rule.
ghost use Rattle.std.specs.Prelude.{◌≡◌};
ghost use Rattle.icn_parse.specs.declared.fault.ParseFault.TheVariants.{Broken as IsBroken, NoMemory as IsNoMemory};
ghost use Rattle.icn_parse.specs.Views.{fault_of_unfit};

use crate::check::Unfit;
use icn_tree::{Place, Rule};
use std::alloc::AllocError;

/// Why a program text has no tree, or one that breaks a rule.
#[derive(Clone, Copy, Debug, PartialEq, Eq)]
pub enum ParseFault {
    /// The first rule that the text breaks, one of S1 to S3; the place of the file's name among the names of the lines, and
    /// the number of the line.
    Broken { rule: Rule, file: u32, line: u32 },
    /// Memory ran out.
    NoMemory,
}

impl ParseFault {
    /// A rule is broken at a place.
    pub fn at(place: Place, rule: Rule) -> Self
        ensures { result ≡ IsBroken rule place.file place.line }
    {
        ParseFault::Broken {
            rule,
            file: place.file,
            line: place.line,
        }
    }
}

impl From<AllocError> for ParseFault {
    ghost from_gives = { λ _ fault. fault ≡ IsNoMemory };

    fn from(_: AllocError) -> Self {
        ParseFault::NoMemory
    }
}

impl From<Unfit> for ParseFault {
    ghost from_gives = { λ unfit fault. fault ≡ fault_of_unfit unfit };

    fn from(unfit: Unfit) -> Self {
        match unfit {
            Unfit::UnknownKeyword(place) => ParseFault::at(place, Rule::S3),
        }
    }
}
