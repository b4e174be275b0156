// The check of code.
ghost use Rattle.std.specs.Prelude.{◌≡◌, ◌<◌, ◌≤◌, ◌^◌, length, IfOk, IfErr, IfSome, OnOk, MatchOption};
ghost use Rattle.icn_code.specs.Codes.{procs_of};
ghost use Rattle.icn_code.specs.CodeTables.{tables_of};
ghost use Rattle.icn_verify.specs.ReachingShapes.{AreWithin};
ghost use Rattle.icn_verify.specs.Faults.{AreSound, IsSound, IsFirstOf, IsVerified};
ghost use Rattle.icn_verify.specs.Refusals.{Refuses, AreBounded};

use crate::fault::VerifyFault;
use crate::pass::fault_of;
use crate::statics::first_statics;
use crate::verified::Verified;
use icn_code::{Code, Instr, LinkedProcedure};
use icn_tree::Rule;
use std::alloc::{AllocError, Global};

// The first rule that a procedure's instructions break, and its address.
fn first_fault(alloc: Global, instrs: &[Instr]) -> Result<Option<(Rule, usize)>, AllocError>
    requires short { length instrs.now < 2 ^ 32 }
    requires labels { AreWithin instrs.now }
    ensures within { IfOk result (λ found. IfSome found (λ f. f.1 ≤ length instrs.now)) }
    ensures first { IfOk result
        (λ found. MatchOption found (IsSound instrs.now) (λ f. IsFirstOf instrs.now f.0 f.1)) }
{
    fault_of(alloc, instrs)
}

// Refuses procedures that break a rule.
fn check_procs(alloc: Global, procs: &[LinkedProcedure]) -> Result<(), VerifyFault>
    requires { AreBounded (procs_of procs.now) }
    ensures sound { OnOk result (AreSound (procs_of procs.now)) }
    ensures refused { IfErr result (Refuses (procs_of procs.now)) }
{
    for (number, proc) in procs.iter().enumerate() {
        let found = first_fault(alloc, &proc.instrs)?;
        match found {
            Some((rule, address)) => {
                return Err(VerifyFault::V {
                    rule,
                    proc: number as u32,
                    address: address as u32,
                });
            }
            None => {}
        }
    }
    Ok(())
}

/// Takes code that breaks no rule of verified code, as it is; any other is dropped.
///
/// # Errors
///
/// `V` with the first rule that the code breaks. `NoMemory` where memory ran out.
pub fn verify(alloc: Global, code: Code) -> Result<Verified, VerifyFault>
    ensures same { IfOk result (λ verified. verified.code ≡ code) }
    ensures verified { OnOk result (IsVerified (tables_of code)) }
    ensures refused { IfErr result (Refuses (procs_of code.procs.items)) }
{
    check_procs(alloc, &code.procs)?;
    let firsts = first_statics(alloc, &code.procs)?;
    Ok(Verified::new(code, firsts))
}
