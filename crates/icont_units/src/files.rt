// The files that words name.
ghost use Rattle.std.specs.Prelude.{◌≡◌, ◌∷◌, ◌++◌, List, IfOk, OnOk, string_bytes};
ghost use Rattle.icn_text.specs.WordTexts.{texts};
ghost use Rattle.std.specs.Option.{option_map};
ghost use Rattle.icont_units.specs.Files.{CommandFile as Named, base_before, file_named, file_without_icn, files_named, source, sources_in, ucode};
ghost use Rattle.icont_units.specs.FetchedFiles.{file_seen, files_seen, new_files};

use indexmap::IndexSet;
use std::alloc::{AllocError, Global};

/// What a name says: a source, or a unit that is there as ucode.
#[derive(Clone, Copy, Debug, PartialEq, Eq)]
pub enum FileKind {
    Source,
    Ucode,
}

/// A file of a command: what it is, and its base name.
#[derive(Clone, Copy, Debug)]
pub struct CommandFile<'a> {
    pub kind: FileKind,
    pub base: &'a str,
}

/// The file of this name: `a.icn` and `a` are the source of base `a`, `a.u1` and `a.u2` the unit of that base.
pub fn file_named(name: &str) -> CommandFile<'_>
    ensures { file_seen result ≡ file_named name.now }
{
    match base_before(name, ".icn") {
        Some(base) => source(base),
        None => file_without_icn(name),
    }
}

// The file of a name that does not end in `.icn`.
fn file_without_icn(name: &str) -> CommandFile<'_>
    ensures { file_seen result ≡ file_without_icn name.now }
{
    match base_before(name, ".u1") {
        Some(base) => ucode(base),
        None => match base_before(name, ".u2") {
            Some(base) => ucode(base),
            None => source(name),
        },
    }
}

fn source(base: &str) -> CommandFile<'_>
    ensures { file_seen result ≡ source base.now }
{
    CommandFile {
        kind: FileKind::Source,
        base,
    }
}

fn ucode(base: &str) -> CommandFile<'_>
    ensures { file_seen result ≡ ucode base.now }
{
    CommandFile {
        kind: FileKind::Ucode,
        base,
    }
}

// What stands before the suffix, where the name has it.
fn base_before<'a>(name: &'a str, suffix: &str) -> Option<&'a str>
    ensures { option_map (λ base. base.now) result ≡ base_before name.now suffix.now }
{
    name.strip_suffix(suffix)
}

/// The files of these names: each base once, where it is named first.
///
/// # Errors
///
/// Memory ran out.
pub fn files_named<'a>(alloc: Global, names: &[&'a str]) -> Result<Vec<CommandFile<'a>>, AllocError>
    ensures { IfOk result (λ files. files_seen files.items ≡ files_named (texts names.now)) }
{
    let mut known = IndexSet::new(alloc);
    let mut files = Vec::new(alloc);
    for name in names {
        enter(&mut known, &mut files, name)?;
    }
    Ok(files)
}

// Adds the file of this name, where its base is not known yet.
fn enter<'a>(
    known: &mut IndexSet<&'a str>,
    files: &mut Vec<CommandFile<'a>>,
    name: &'a str,
) -> Result<(), AllocError>
    ensures { OnOk result ((rest : List Named)
        → files_seen files.new.items ++ new_files (texts known.new.keys) rest
        ≡ files_seen files.old.items ++ new_files (texts known.old.keys) (file_named name.now ∷ rest)) }
{
    let file = file_named(name);
    if known.insert(file.base)? {
        files.push(file)?;
    }
    Ok(())
}

/// Those of these files that are sources.
///
/// # Errors
///
/// Memory ran out.
pub fn sources_in<'a>(
    alloc: Global,
    files: &[CommandFile<'a>],
) -> Result<Vec<CommandFile<'a>>, AllocError>
    ensures { IfOk result (λ found. files_seen found.items ≡ sources_in (files_seen files.now)) }
{
    let mut found = Vec::new(alloc);
    for file in files {
        match file.kind {
            FileKind::Source => found.push(*file)?,
            FileKind::Ucode => {}
        }
    }
    Ok(found)
}

/// The name under which a text of this base stands in the store, with its suffix.
///
/// # Errors
///
/// Memory ran out.
pub fn name_with(alloc: Global, base: &str, suffix: &str) -> Result<String, AllocError>
    ensures { IfOk result (λ name. string_bytes name ≡ base.now ++ suffix.now) }
{
    let mut name = String::from_str(alloc, base)?;
    name.push_str(suffix)?;
    Ok(name)
}
