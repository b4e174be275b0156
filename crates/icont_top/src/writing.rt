// The ucode texts of units, and the files that are written.
ghost use Rattle.std.specs.Prelude.{◌≡◌, ◌++◌, [], slice_index_or, IfOk, IsErrOf, OnErr, OnOk};
ghost use Rattle.icn_host.specs.Counts.{CountsOnce};
ghost use Rattle.icn_link.specs.Units.{unit_seen, units_seen};
ghost use Rattle.icont_units.specs.FetchedFiles.{files_seen};
ghost use Rattle.icont_top.specs.Outcomes.{WritesAll, WritesPart};
ghost use Rattle.icont_top.specs.Writing.{bases, texts_seen, unit_written, units_written};

use icn_host::{Fault, Files};
use icn_unit::{Unit, write_unit};
use icont_units::{CommandFile, name_with};
use std::alloc::{AllocError, Global};

/// A text that is written: the name of its file, and its bytes.
#[derive(Drop)]
pub struct FileToWrite {
    pub name: String,
    pub bytes: Vec<u8>,
}

/// The texts of units, each under the base of the file at its place: `B.u1` and `B.u2` of the first, and so on.
///
/// # Errors
///
/// Memory ran out.
pub fn ucode_texts(
    alloc: Global,
    sources: &[CommandFile],
    units: &[Unit],
) -> Result<Vec<FileToWrite>, AllocError>
    ensures { IfOk result (λ texts. texts_seen texts.items
        ≡ units_written (bases (files_seen sources.now)) (units_seen units.now)) }
{
    let mut texts = Vec::new(alloc);
    for (place, unit) in units.iter().enumerate() {
        push_texts(alloc, base_at(sources, place), unit, &mut texts)?;
    }
    Ok(texts)
}

// The base name of the file at this place.
fn base_at<'a>(files: &[CommandFile<'a>], place: usize) -> &'a str
    ensures { result.now ≡ slice_index_or (bases (files_seen files.now)) place [] }
{
    match files.get(place) {
        Some(file) => file.base,
        None => "",
    }
}

// Adds the two texts of a unit under this base name.
fn push_texts(
    alloc: Global,
    base: &str,
    unit: &Unit,
    texts: &mut Vec<FileToWrite>,
) -> Result<(), AllocError>
    ensures { OnOk result (texts_seen texts.new.items ≡ texts_seen texts.old.items
        ++ unit_written base.now (unit_seen unit.now)) }
{
    let text = write_unit(alloc, unit)?;
    let first = name_with(alloc, base, ".u1")?;
    let second = name_with(alloc, base, ".u2")?;
    texts.push(FileToWrite {
        name: first,
        bytes: text.u1,
    })?;
    texts.push(FileToWrite {
        name: second,
        bytes: text.u2,
    })?;
    Ok(())
}

/// Writes the texts in their order.
///
/// # Errors
///
/// The store's, at the first text that could not be written whole: those before it were.
pub fn write_all<F: Files>(files: &mut F, texts: &[FileToWrite]) -> Result<(), Fault>
    ensures all { OnOk result
        (WritesAll (F.state files.old).held (F.state files.new).held (texts_seen texts.now)) }
    ensures part { OnErr result
        (WritesPart (F.state files.old).held (F.state files.new).held (texts_seen texts.now)) }
    ensures cause { CountsOnce (F.state files.old).counts.faults (F.state files.new).counts.faults
        (IsErrOf result Fault.Failed) }
    ensures want { CountsOnce (F.state files.old).counts.wants (F.state files.new).counts.wants
        (IsErrOf result Fault.NoMemory) }
    ensures absences { (F.state files.new).counts.absences ≡ (F.state files.old).counts.absences }
{
    let mut rest = texts;
    while let Some((text, others)) = rest.split_first() {
        files.write(&text.name, &text.bytes)?;
        rest = others;
    }
    Ok(())
}
