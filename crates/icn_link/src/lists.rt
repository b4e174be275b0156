// All procedures and declarations of units.
ghost use Rattle.std.specs.Prelude.{◌≡◌, ◌++◌, map, IfOk, OnOk};
ghost use Rattle.icn_unit.specs.UnitViews.{decl_seen, proc_seen};
ghost use Rattle.icn_link.specs.Units.{all_decls, all_procs, units_seen};
ghost use Rattle.icn_link.specs.Views.{decls_seen, procs_seen};

use icn_unit::{ProcCode, Unit, UnitDecl};
use std::alloc::{AllocError, Global};

/// The procedures of all units, in their order. The error is want of memory.
pub fn procs_of<'a>(alloc: Global, units: &'a [Unit]) -> Result<Vec<&'a ProcCode>, AllocError>
    ensures { IfOk result (λ procs. procs_seen procs.items ≡ all_procs (units_seen units.now)) }
{
    let mut procs = Vec::new(alloc);
    for unit in units {
        put_procs(&mut procs, &unit.procs)?;
    }
    Ok(procs)
}

fn put_procs<'a>(procs: &mut Vec<&'a ProcCode>, more: &'a [ProcCode]) -> Result<(), AllocError>
    ensures { OnOk result
        (procs_seen procs.new.items ≡ procs_seen procs.old.items ++ map proc_seen more.now) }
{
    for proc in more {
        procs.push(proc)?;
    }
    Ok(())
}

/// The declarations of all units, in their order. The error is want of memory.
pub fn decls_of<'a>(alloc: Global, units: &'a [Unit]) -> Result<Vec<&'a UnitDecl>, AllocError>
    ensures { IfOk result (λ decls. decls_seen decls.items ≡ all_decls (units_seen units.now)) }
{
    let mut decls = Vec::new(alloc);
    for unit in units {
        put_decls(&mut decls, &unit.decls)?;
    }
    Ok(decls)
}

fn put_decls<'a>(decls: &mut Vec<&'a UnitDecl>, more: &'a [UnitDecl]) -> Result<(), AllocError>
    ensures { OnOk result
        (decls_seen decls.new.items ≡ decls_seen decls.old.items ++ map decl_seen more.now) }
{
    for decl in more {
        decls.push(decl)?;
    }
    Ok(())
}
