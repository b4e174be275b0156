// What comes of two texts.
use crate::ucode::built::main_unit;
use icn_ucode::{UcodeFault, Unit, read_unit, write_unit};
use std::alloc::{AllocError, Global};

/// Which of the two texts breaks a rule, and which rule, or whether they are written again as they are. `AllocError` is want of
/// memory.
pub fn texts_outcome(alloc: Global, u1: &[u8], u2: &[u8]) -> Result<String, AllocError> {
    match read_unit(alloc, "f", u1, u2) {
        Ok(unit) => {
            let is_same = is_written_as(alloc, &unit, u1, u2)?;
            String::from_str(alloc, if is_same { "again" } else { "other texts" })
        }
        Err(UcodeFault::Broken { rule, second }) => {
            let place = if second { "second" } else { "first" };
            format!(in alloc; "{place} {rule:?}")
        }
        Err(UcodeFault::NoMemory) => Err(AllocError),
    }
}

/// Whether two texts break a rule, or are written again as they are. `AllocError` is want of memory.
pub fn is_refused_or_same(alloc: Global, u1: &[u8], u2: &[u8]) -> Result<bool, AllocError> {
    match read_unit(alloc, "f", u1, u2) {
        Ok(unit) => is_written_as(alloc, &unit, u1, u2),
        Err(UcodeFault::Broken { .. }) => Ok(true),
        Err(UcodeFault::NoMemory) => Err(AllocError),
    }
}

// Whether a unit has the name `f`, and these are its texts.
fn is_written_as(alloc: Global, unit: &Unit, u1: &[u8], u2: &[u8]) -> Result<bool, AllocError> {
    let text = write_unit(alloc, unit)?;
    Ok(
        unit.name.as_slice() == b"f".as_slice()
            && text.u1.as_slice() == u1
            && text.u2.as_slice() == u2,
    )
}

/// The texts of the unit that is built, with a pilcrow as the end of a line. `AllocError` is want of memory.
pub fn built_outcome(alloc: Global) -> Result<String, AllocError> {
    let unit = main_unit(alloc)?;
    let text = write_unit(alloc, &unit)?;
    let first = one_line(alloc, &text.u1)?;
    let second = one_line(alloc, &text.u2)?;
    format!(in alloc; "{first}|{second}|")
}

fn one_line(alloc: Global, bytes: &[u8]) -> Result<String, AllocError> {
    let text = String::from_utf8_lossy(alloc, bytes)?;
    text.replace(alloc, "\n", "¶")
}
