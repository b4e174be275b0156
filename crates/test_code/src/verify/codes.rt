// Codes of cases.
ghost use Rattle.std.specs.Prelude.{◌≡◌, true, length, IfOk, IfSome};
ghost use Rattle.std.specs.List.{list_all};
ghost use Rattle.icn_code.specs.Codes.{proc_of, procs_of};
ghost use Rattle.icn_code.specs.Rules.{is_start};
ghost use Rattle.test_code.specs.Known.{is_known, IsKnown, AreKnown};

use icn_code::{Code, Global as Variable, Instr, LinkedProcedure, Start};
use icn_text::Func;
use icn_tree::Bytes;
use std::alloc::{AllocError, Global};

/// Whether an instruction names what is there: one of three strings or two globals, the one integer or field, no cset, local or
/// static, and a label that is a address of its procedure.
fn is_known(count: usize, instr: Instr) -> bool
    ensures { result ≡ is_known count instr }
{
    match instr {
        Instr::Str(index) => index < 3,
        Instr::Global(index) => index < 2,
        Instr::Int(index) | Instr::Field(index) => index < 1,
        Instr::Cset(_) | Instr::Local(_) | Instr::Static(_) => false,
        Instr::Llist(operands) | Instr::Invoke(operands) => operands <= 65535,
        Instr::Mark(label)
        | Instr::Chfail(label)
        | Instr::Goto(label)
        | Instr::Loop(label)
        | Instr::Init(label)
        | Instr::Create(label) => label as usize <= count,
        _ => true,
    }
}

fn are_known(instrs: &[Instr]) -> bool
    ensures { result ≡ list_all (is_known (length instrs.now)) instrs.now }
{
    let count = instrs.len();
    instrs.iter().all(|instr| is_known(count, *instr))
}

/// A procedure with these instructions; none, if one names what isn't there.
fn procedure(alloc: Global, instrs: &[Instr]) -> Result<Option<LinkedProcedure>, AllocError>
    ensures { IfOk result (λ found. IfSome found (λ proc. IsKnown (proc_of proc))) }
{
    if instrs.len() > u32::MAX as usize || !are_known(instrs) {
        return Ok(None);
    }
    Ok(Some(LinkedProcedure {
        name: 0,
        parameters: 0,
        collects: false,
        locals: 0,
        statics: 0,
        instrs: Vec::from_slice(alloc, instrs)?,
    }))
}

/// The procedures with these instructions; none, if one names what isn't there. `AllocError` is want of memory.
pub fn procedures(
    alloc: Global,
    bodies: &[&[Instr]],
) -> Result<Option<Vec<LinkedProcedure>>, AllocError>
    ensures { IfOk result (λ found. IfSome found (λ procs. AreKnown (procs_of procs.items))) }
{
    let mut procs = Vec::new(alloc);
    for body in bodies {
        if procs.len() == 65535 {
            return Ok(None);
        }
        match procedure(alloc, body)? {
            Some(proc) => procs.push(proc)?,
            None => return Ok(None),
        }
    }
    Ok(Some(procs))
}

// The first procedure, if there is one.
fn first_start(procs: &[LinkedProcedure]) -> Start
    ensures { is_start 0 (length procs.now) result ≡ true }
{
    if procs.is_empty() {
        Start::Null
    } else {
        Start::Procedure(0)
    }
}

/// The code of a program that calls `write`, with these procedures. `AllocError` is want of memory.
pub fn code_of(alloc: Global, procs: Vec<LinkedProcedure>) -> Result<Code, AllocError>
    requires known { AreKnown (procs_of procs.items) }
{
    let main = Variable {
        name: 0,
        start: first_start(&procs),
    };
    let write = Variable {
        name: 1,
        start: Start::Function(Func::Write),
    };
    Ok(Code {
        strings: vec![in alloc;
            Bytes::from_slice(alloc, b"main")?,
            Bytes::from_slice(alloc, b"write")?,
            Bytes::from_slice(alloc, b"hi")?,
        ]?,
        csets: Vec::new(alloc),
        integers: vec![in alloc; 5]?,
        fields: vec![in alloc; 0]?,
        records: Vec::new(alloc),
        globals: vec![in alloc; main, write]?,
        procs,
    })
}
