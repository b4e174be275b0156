// The code that is left.
ghost use Rattle.std.specs.Prelude.{◌≡◌, IfOk};
ghost use Rattle.icn_code.specs.CodeTables.{tables_of};
ghost use Rattle.icn_prune.specs.KeptCode.{MayBeKept};
ghost use Rattle.icn_prune.specs.PrunedCode.{pruned_tables, survivors};
ghost use Rattle.icn_prune.specs.PlaceViews.{survivors_seen};

use crate::entries::kept_procs;
use crate::leaving::{
    csets_left, fields_left, globals_left, integers_left, procs_left, records_left, strings_left,
};
use crate::prune_laws::pruned_code_fits;
use crate::surviving::{SurvivingPlaces, survivors};
use icn_code::Code;
use std::alloc::{AllocError, Global};

/// The code without the procedures that are not kept, and without what only these mention: it has the kept procedures and all record types,
/// in their order; of the globals those that begin null, with a kept procedure, with a constructor, or with a function that a kept
/// procedure mentions; and of the other tables what these mention, each once, by first mention. An error is want of memory; the
/// code is dropped then.
pub fn prune(alloc: Global, code: Code, keep: &[bool]) -> Result<Code, AllocError>
    requires kept { MayBeKept (tables_of code) keep.now }
    ensures { IfOk result (λ left. tables_of left ≡ pruned_tables keep.now (tables_of code)) }
{
    let left = survivors(alloc, &code, keep)?;
    prune_with(alloc, &code, keep, &left)
}

// The same, where this stays of each table.
fn prune_with(
    alloc: Global,
    code: &Code,
    keep: &[bool],
    left: &SurvivingPlaces,
) -> Result<Code, AllocError>
    requires kept { MayBeKept (tables_of code.now) keep.now }
    requires left { survivors_seen left.now ≡ survivors (tables_of code.now) keep.now }
    ensures { IfOk result (λ pruned_code. tables_of pruned_code ≡ pruned_tables keep.now (tables_of code.now)) }
{
    pruned_code_fits();
    let strings = strings_left(alloc, code, left)?;
    let csets = csets_left(alloc, code, left)?;
    let integers = integers_left(alloc, code, left)?;
    let fields = fields_left(alloc, code, left)?;
    let records = records_left(alloc, code, left)?;
    let globals = globals_left(alloc, code, left)?;
    let entries = kept_procs(alloc, code, keep)?;
    let procs = procs_left(alloc, &entries, left)?;
    Ok(Code {
        strings,
        csets,
        integers,
        fields,
        records,
        globals,
        procs,
    })
}
