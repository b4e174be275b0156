// What fits a shape.
use crate::verify::instructions::instruction;
use icn_verify::{Level, LevelKind, Shape, fits};
use std::alloc::{AllocError, Global};

/// Whether an instruction fits a shape: where it is, its levels with a comma between two of them, and the instruction. `AllocError` is want of
/// memory.
pub fn fits_text(alloc: Global, case: &str) -> Result<String, AllocError> {
    let (place, rest) = case.split_once(" ").unwrap_or((case, ""));
    let (levels, at) = rest.split_once(" ").unwrap_or((rest, ""));
    let mut marks = Vec::new(alloc);
    for word in levels.split(',') {
        if let Some(level) = level(word) {
            marks.push(level)?;
        }
    }
    let shape = Shape {
        in_create: place == "create",
        marks,
    };
    let said = match instruction(at) {
        Some(at) if fits(&shape, at) => "fits",
        Some(_) => "does not fit",
        None => "no instruction",
    };
    String::from_str(alloc, said)
}

// A level: empty and scanned are bases, the others have one operand and no open scan.
fn level(word: &str) -> Option<Level> {
    match word {
        "empty" => Some(with_operands(LevelKind::Base, 0, 0)),
        "base" => Some(with_operands(LevelKind::Base, 1, 0)),
        "scanned" => Some(with_operands(LevelKind::Base, 1, 1)),
        "plain" => Some(with_operands(LevelKind::Plain, 1, 0)),
        "limit" => Some(with_operands(LevelKind::Limit, 1, 0)),
        _ => None,
    }
}

fn with_operands(kind: LevelKind, operands: u32, scans: u32) -> Level {
    Level {
        kind,
        operands,
        scans,
    }
}
