// Why code is refused.
ghost use Rattle.std.specs.Prelude.{◌≡◌};
ghost use Rattle.icn_verify.specs.declared.fault.VerifyFault.TheVariants.{NoMemory};

use icn_tree::Rule;
use std::alloc::AllocError;

/// Why code is refused.
#[derive(Clone, Copy, Debug, PartialEq, Eq)]
pub enum VerifyFault {
    /// The first rule that the code breaks, by procedure, address and number of the rule. The address counts instructions of the
    /// procedure, and at its end is their count.
    V { rule: Rule, proc: u32, address: u32 },
    /// Memory ran out.
    NoMemory,
}

impl From<AllocError> for VerifyFault {
    ghost from_gives = { λ _ fault. fault ≡ NoMemory };

    fn from(_: AllocError) -> Self {
        VerifyFault::NoMemory
    }
}
