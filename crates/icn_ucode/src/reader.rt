// Reads units.
ghost use Rattle.std.specs.Prelude.{◌≡◌, ◌⊎◌, Err, Some, map};
ghost use Rattle.std.specs.Option.{option_copied};
ghost use Rattle.icn_unit.specs.PlainUnits.{declared_name};
ghost use Rattle.icn_unit.specs.UnitRules.{same_names};
ghost use Rattle.icn_unit.specs.UnitViews.{decl_seen, proc_seen};
ghost use Rattle.icn_ucode.specs.DeclViews.{outcome_of, procs_behind};
ghost use Rattle.icn_ucode.specs.UnitReading.{unit_read};

use crate::decl_reader::read_decls;
use crate::proc_reader::read_procs;
use icn_tree::{Bytes, Rule};
use icn_unit::{ProcCode, UcodeFault, Unit, UnitDecl};
use std::alloc::{AllocError, Global};

/// The unit that two texts spell, under a base name. An error is the first rule that the texts break, the first text before
/// the second, or want of memory.
pub fn read_unit<'a>(
    alloc: Global,
    name: &str,
    u1: &'a [u8],
    u2: &'a [u8],
) -> Result<Unit, UcodeFault>
    ensures exact { (result ≡ Err UcodeFault.NoMemory)
        ⊎ (outcome_of result ≡ Some (unit_read name.now u1.now u2.now)) }
{
    let procs = match read_procs(alloc, u1) {
        Ok(procs) => procs,
        Err(stop) => return Err(stop.in_text(false)),
    };
    let decls = match read_decls(alloc, &procs, u2) {
        Ok(decls) => decls,
        Err(stop) => return Err(stop.in_text(true)),
    };
    let procs = procs.procs;
    if !same_names(&procs, &decls) {
        return Err(UcodeFault::Broken {
            rule: Rule::U7,
            second: true,
        });
    }
    match Bytes::from_slice(alloc, name.as_bytes()) {
        Ok(name) => Ok(Unit { name, procs, decls }),
        Err(AllocError) => Err(UcodeFault::NoMemory),
    }
}

// Whether the procedures are, in their order and by name, those that the declarations name.
fn same_names(procs: &[ProcCode], decls: &[UnitDecl]) -> bool
    ensures { result ≡ same_names (map proc_seen procs.now) (map decl_seen decls.now) }
{
    let mut rest = procs;
    for decl in decls {
        let Some(others) = without_first(rest, decl) else {
            return false;
        };
        rest = others;
    }
    rest.is_empty()
}

// The procedures behind the first, where a declaration names that one; all of them, where it names none.
fn without_first<'a>(procs: &'a [ProcCode], decl: &UnitDecl) -> Option<&'a [ProcCode]>
    ensures { option_copied result ≡ procs_behind procs.now (declared_name (decl_seen decl.now)) }
{
    match decl {
        UnitDecl::Proc(name) => match procs.split_first() {
            Some((proc, others)) if proc.name.as_slice() == name.as_slice() => Some(others),
            _ => None,
        },
        _ => Some(procs),
    }
}
