// Verified code.
ghost use Rattle.icn_code.specs.CodeTables.{tables_of};
ghost use Rattle.std.specs.Prelude.{◌≡◌};
ghost use Rattle.icn_verify.specs.Faults.{IsVerified};
ghost use Rattle.icn_verify.specs.FirstStatics.{first_statics};
ghost use Rattle.icn_verify.specs.Given.{HaveShapes};

use icn_code::Code;

/// Code that breaks no rule of verified code: at every address that is reached the stack has one shape.
#[derive(Debug, Drop)]
pub struct Verified {
    code: Code,
    firsts: Vec<u32>,
    ghost verified: { IsVerified (tables_of code) },
    ghost begun: { firsts.items ≡ first_statics (tables_of code) },
}

impl Verified {
    /// Keeps code that breaks no rule, with the number of each procedure's first static.
    pub(crate) fn new(code: Code, firsts: Vec<u32>) -> Verified
        requires verified { IsVerified (tables_of code) }
        requires firsts { firsts.items ≡ first_statics (tables_of code) }
        ensures { result.code ≡ code }
    {
        Verified { code, firsts }
    }

    /// The number of each procedure's first static: statics are numbered procedure by procedure. It takes no memory.
    pub fn first_statics(&self) -> &[u32]
        ensures { result.now ≡ first_statics (tables_of self.now.code) }
    {
        &self.firsts
    }

    /// The code. It takes no memory.
    pub fn code(&self) -> &Code
        ensures code { result.now ≡ self.now.code }
        ensures verified { IsVerified (tables_of result.now) }
        ensures shapes { HaveShapes (tables_of result.now) }
    {
        &self.code
    }
}
