// A program that has one record type, p(x), and no procedure.
ghost use Rattle.std.specs.Prelude.{◌≡◌, length, IfOk};
ghost use Rattle.icn_code.specs.CodeTables.{tables_of};

use icn_code::{Code, LinkedRecord};
use icn_tree::Bytes;
use std::alloc::{AllocError, Global};

/// The code of this program. `AllocError` is want of memory.
#[tactic(auto, unfolding(icn_code::specs::Rules::keeps_rules))]
pub fn one_record(alloc: Global) -> Result<Code, AllocError>
    ensures { IfOk result (λ code. length (tables_of code).records ≡ 1) }
{
    let mut strings = Vec::new(alloc);
    strings.push(Bytes::from_slice(alloc, b"p")?)?;
    strings.push(Bytes::from_slice(alloc, b"x")?)?;
    let mut records = Vec::new(alloc);
    records.push(LinkedRecord {
        name: 0,
        fields: vec![in alloc; 0]?,
    })?;
    Ok(Code {
        strings,
        csets: Vec::new(alloc),
        integers: Vec::new(alloc),
        fields: vec![in alloc; 1]?,
        records,
        globals: Vec::new(alloc),
        procs: Vec::new(alloc),
    })
}
