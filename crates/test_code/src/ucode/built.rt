// A unit that is built, and not read.
ghost use Rattle.std.specs.Prelude.{◌≡◌, IfOk};
ghost use Rattle.icn_unit.specs.UnitViews.{proc_seen};
ghost use Rattle.test_code.specs.Built.{instrs, main, names};

use icn_tree::Bytes;
use icn_ucode::{NameKind, ProcCode, Unit, UnitDecl, UnitInstr, UnitName};
use std::alloc::{AllocError, Global};

fn names(alloc: Global) -> Result<Vec<UnitName>, AllocError>
    ensures { IfOk result (λ v. v.items ≡ names) }
{
    let write = UnitName {
        kind: NameKind::Undeclared,
        name: Bytes::from_slice(alloc, b"write")?,
    };
    let mut names = Vec::new(alloc);
    names.push(write)?;
    Ok(names)
}

fn instrs(alloc: Global) -> Result<Vec<UnitInstr>, AllocError>
    ensures { IfOk result (λ v. v.items ≡ instrs) }
{
    let text = Bytes::from_slice(alloc, b"hi")?;
    let mut instrs = Vec::new(alloc);
    instrs.push(UnitInstr::Mark(1))?;
    instrs.push(UnitInstr::Var(0))?;
    instrs.push(UnitInstr::Str(text))?;
    instrs.push(UnitInstr::Invoke(1))?;
    instrs.push(UnitInstr::Unmark)?;
    instrs.push(UnitInstr::Lab(1))?;
    instrs.push(UnitInstr::Pfail)?;
    Ok(instrs)
}

fn main_proc(alloc: Global) -> Result<ProcCode, AllocError>
    ensures { IfOk result (λ proc. proc_seen proc ≡ main) }
{
    Ok(ProcCode {
        name: Bytes::from_slice(alloc, b"main")?,
        collects: false,
        names: names(alloc)?,
        instrs: instrs(alloc)?,
    })
}

/// A unit whose `main` is `write("hi")`. An error is want of memory.
pub fn main_unit(alloc: Global) -> Result<Unit, AllocError> {
    let name = Bytes::from_slice(alloc, b"f")?;
    let mut procs = Vec::new(alloc);
    procs.push(main_proc(alloc)?)?;
    let mut decls = Vec::new(alloc);
    decls.push(UnitDecl::Proc(Bytes::from_slice(alloc, b"main")?))?;
    Ok(Unit { name, procs, decls })
}
