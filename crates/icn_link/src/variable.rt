// What the names of a procedure stand for.
ghost use Rattle.std.specs.Prelude.{◌≡◌, ◌≤◌, ◌+◌, ◌++◌, ◌∷◌, List, length, IfOk, OnOk};
ghost use Rattle.icn_profile.specs.Numbers.{most_entries, most_variables};
ghost use Rattle.icn_unit.specs.declared.unit.UnitName.{UnitName};
ghost use Rattle.icn_link.specs.Joined.{locals_in, statics_in, variable_of, variables};
ghost use Rattle.icn_link.specs.Views.{texts_seen};

use crate::gathered::text_index;
use icn_code::Instr;
use icn_unit::{NameKind, UnitName};
use indexmap::IndexSet;
use std::alloc::{AllocError, Global};

/// What a name of a procedure is.
#[derive(Clone, Copy, Debug, PartialEq, Eq)]
pub enum VariableKind {
    Local,
    Static,
    Global,
}

/// What a name of a procedure is, where these are the globals.
pub fn variable_of(globals: &IndexSet<&[u8]>, entry: &UnitName) -> VariableKind
    ensures { result ≡ variable_of (texts_seen globals.now.keys) entry.now }
{
    match entry.kind {
        NameKind::Parameter => VariableKind::Local,
        NameKind::Local => VariableKind::Local,
        NameKind::Static => VariableKind::Static,
        NameKind::Undeclared => {
            if globals.contains(entry.name.as_slice()) {
                VariableKind::Global
            } else {
                VariableKind::Local
            }
        }
    }
}

/// The instruction of each name of a procedure, in the order of the names. The error is want of memory.
pub fn variables(
    alloc: Global,
    globals: &IndexSet<&[u8]>,
    names: &[UnitName],
) -> Result<Vec<Instr>, AllocError>
    requires few { length (texts_seen globals.now.keys) ≤ most_entries }
    requires locals { locals_in (texts_seen globals.now.keys) names.now ≤ most_variables }
    requires statics { statics_in (texts_seen globals.now.keys) names.now ≤ most_variables }
    ensures { IfOk result (λ instrs. instrs.items ≡ variables (texts_seen globals.now.keys) 0 0 names.now) }
{
    let mut instrs = Vec::new(alloc);
    let mut locals = 0;
    let mut statics = 0;
    for entry in names {
        put_variable(&mut instrs, &mut locals, &mut statics, globals, entry)?;
    }
    Ok(instrs)
}

// Adds the instruction of a name, where so many locals and statics were before.
fn put_variable(
    instrs: &mut Vec<Instr>,
    locals: &mut u32,
    statics: &mut u32,
    globals: &IndexSet<&[u8]>,
    entry: &UnitName,
) -> Result<(), AllocError>
    requires few { length (texts_seen globals.now.keys) ≤ most_entries }
    requires locals { locals.now ≤ most_variables }
    requires statics { statics.now ≤ most_variables }
    ensures locals { OnOk result ((rest : List UnitName) →
        locals.new + locals_in (texts_seen globals.now.keys) rest
        ≡ locals.old + locals_in (texts_seen globals.now.keys) (entry.now ∷ rest)) }
    ensures statics { OnOk result ((rest : List UnitName) →
        statics.new + statics_in (texts_seen globals.now.keys) rest
        ≡ statics.old + statics_in (texts_seen globals.now.keys) (entry.now ∷ rest)) }
    ensures instrs { OnOk result ((rest : List UnitName) →
        instrs.new.items ++ variables (texts_seen globals.now.keys) locals.new statics.new rest
        ≡ instrs.old.items
        ++ variables (texts_seen globals.now.keys) locals.old statics.old (entry.now ∷ rest)) }
{
    match variable_of(globals, entry) {
        VariableKind::Local => {
            instrs.push(Instr::Local(*locals))?;
            *locals += 1;
            Ok(())
        }
        VariableKind::Static => {
            instrs.push(Instr::Static(*statics))?;
            *statics += 1;
            Ok(())
        }
        VariableKind::Global => {
            instrs.push(Instr::Global(text_index(globals, entry.name.as_slice())))?;
            Ok(())
        }
    }
}

/// How many locals there are among names, parameters among them.
pub fn locals_in(globals: &IndexSet<&[u8]>, names: &[UnitName]) -> u64
    ensures { result ≡ locals_in (texts_seen globals.now.keys) names.now }
{
    names
        .iter()
        .filter(|entry| matches!(variable_of(globals, entry), VariableKind::Local))
        .count() as u64
}

/// How many statics there are among names.
pub fn statics_in(globals: &IndexSet<&[u8]>, names: &[UnitName]) -> u64
    ensures { result ≡ statics_in (texts_seen globals.now.keys) names.now }
{
    names
        .iter()
        .filter(|entry| matches!(variable_of(globals, entry), VariableKind::Static))
        .count() as u64
}
