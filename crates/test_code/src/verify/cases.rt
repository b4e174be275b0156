// What comes of a case.
ghost use Rattle.icn_code.specs.Codes.{procs_of};
ghost use Rattle.test_code.specs.Known.{AreKnown};

use crate::verify::codes::{code_of, procedures};
use crate::verify::instructions::instructions;
use crate::verify::shapes::fits_text;
use icn_code::{Instr, LinkedProcedure};
use icn_verify::{VerifyFault, verify};
use std::alloc::{AllocError, Global};

/// What the check says of a case. `AllocError` is want of memory.
pub fn outcome(alloc: Global, line: &str) -> Result<String, AllocError> {
    let (word, case) = line.split_once(" ").unwrap_or((line, ""));
    match word {
        "code" => written_code(alloc, case),
        "none" => checked_bodies(alloc, &[]),
        "fits" => fits_text(alloc, case),
        _ => long_code(alloc),
    }
}

// Procedures with a stroke between two of them.
fn written_code(alloc: Global, case: &str) -> Result<String, AllocError> {
    let mut bodies = Vec::new(alloc);
    for body in case.split(" | ") {
        match instructions(alloc, body)? {
            Some(instrs) => bodies.push(instrs)?,
            None => return String::from_str(alloc, "no instruction"),
        }
    }
    let mut slices = Vec::new(alloc);
    for body in &bodies {
        slices.push(body.as_slice())?;
    }
    checked_bodies(alloc, &slices)
}

fn checked_bodies(alloc: Global, bodies: &[&[Instr]]) -> Result<String, AllocError> {
    match procedures(alloc, bodies)? {
        Some(procs) => checked(alloc, procs),
        None => String::from_str(alloc, "no code"),
    }
}

// How many procedures were taken, or the first rule that is broken, with the procedure and the address.
fn checked(alloc: Global, procs: Vec<LinkedProcedure>) -> Result<String, AllocError>
    requires { AreKnown (procs_of procs.items) }
{
    match verify(alloc, code_of(alloc, procs)?) {
        Ok(verified) => {
            let count = verified.code().procs.len();
            format!(in alloc; "{count} taken")
        }
        Err(
            VerifyFault::V {
                rule,
                proc,
                address,
            },
        ) => format!(in alloc; "{rule:?} in {proc} at {address}"),
        Err(VerifyFault::NoMemory) => String::from_str(alloc, "no memory"),
    }
}

// A million instructions one after the other, many operands, and many marks in one another.
fn long_code(alloc: Global) -> Result<String, AllocError> {
    let mut flat = Vec::new(alloc);
    for _ in 0..500_000 {
        flat.push(Instr::Pnull)?;
        flat.push(Instr::Pop)?;
    }
    flat.push(Instr::Pfail)?;
    let rising = nested(alloc, Instr::Pnull, Instr::Pop)?;
    let deep = nested(alloc, Instr::Mark0, Instr::Unmark)?;
    checked_bodies(
        alloc,
        &[flat.as_slice(), rising.as_slice(), deep.as_slice()],
    )
}

// A procedure that opens so often, and closes as often.
fn nested(alloc: Global, opening: Instr, closing: Instr) -> Result<Vec<Instr>, AllocError> {
    let mut instrs = Vec::new(alloc);
    for _ in 0..100_000 {
        instrs.push(opening)?;
    }
    for _ in 0..100_000 {
        instrs.push(closing)?;
    }
    instrs.push(Instr::Pfail)?;
    Ok(instrs)
}
