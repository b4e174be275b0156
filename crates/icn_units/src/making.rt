// The unit of a checked file.
ghost use Rattle.std.specs.Prelude.{◌≡◌, IfOk};
ghost use Rattle.icn_tree.specs.TreeOf.{declarations_of};
ghost use Rattle.icn_translate.specs.FileUnits.{translated_unit};
ghost use Rattle.icn_units.specs.UnitSeen.{unit_seen};

use crate::bounds::{codes_fit, decls_fit};
use icn_decls::Checked;
use icn_translate::{proc_codes, unit_decls};
use icn_tree::Bytes;
use icn_unit::Unit;
use std::alloc::{AllocError, Global};

/// The unit of a checked file, under this name: the codes of its procedures, and a line for each name and file that it declares.
/// It keeps the rules of units, whatever the name is, since no text of the unit holds it.
///
/// # Errors
///
/// Want of memory.
pub fn unit(alloc: Global, name: &[u8], file: &Checked) -> Result<Unit, AllocError>
    ensures { IfOk result
        (λ unit. unit_seen unit ≡ translated_unit name.now (declarations_of file.now.text)) }
{
    let text = file.file();
    let procs = proc_codes(alloc, &text.decls)?;
    let decls = unit_decls(alloc, &text.decls)?;
    codes_fit(&procs);
    decls_fit(&decls);
    Ok(Unit {
        name: Bytes::from_slice(alloc, name)?,
        procs,
        decls,
    })
}
