// The instructions of linked code.
ghost use Rattle.std.specs.Prelude.{◌≡◌, ◌++◌, IfOk, OnOk};
ghost use Rattle.icn_link.specs.Joined.{scope_with, variable_at};
ghost use Rattle.icn_link.specs.Resolving.{instr_in, instr_list, resolve, resolved_one};
ghost use Rattle.icn_link.specs.Views.{gathered_seen, address_in, AreFew};

use crate::gathered::{GatheredMentions, integer_index, text_index};
use crate::labels::{LabelAddresses, address_in};
use icn_code::Instr;
use icn_unit::UnitInstr;
use std::alloc::{AllocError, Global};

/// The instructions of a procedure, where its names are these variables. The error is want of memory.
pub fn resolve_instrs(
    alloc: Global,
    tables: &GatheredMentions<'_>,
    variables: &[Instr],
    labels: &LabelAddresses,
    instrs: &[UnitInstr],
) -> Result<Vec<Instr>, AllocError>
    requires few { AreFew (gathered_seen tables.now) }
    ensures { IfOk result (λ code. code.items
        ≡ resolve (scope_with (gathered_seen tables.now) variables.now (address_in labels.now)) instrs.now) }
{
    let mut code = Vec::new(alloc);
    for instr in instrs {
        put(&mut code, instr_in(tables, variables, labels, instr))?;
    }
    Ok(code)
}

fn put(code: &mut Vec<Instr>, instr: Option<Instr>) -> Result<(), AllocError>
    ensures { OnOk result (code.new.items ≡ code.old.items ++ instr_list instr) }
{
    match instr {
        Some(instr) => {
            code.push(instr)?;
            Ok(())
        }
        None => Ok(()),
    }
}

// What an instruction is in linked code. That of a label is none.
fn instr_in(
    tables: &GatheredMentions<'_>,
    variables: &[Instr],
    labels: &LabelAddresses,
    instr: &UnitInstr,
) -> Option<Instr>
    requires few { AreFew (gathered_seen tables.now) }
    ensures { result
        ≡ instr_in (scope_with (gathered_seen tables.now) variables.now (address_in labels.now)) instr.now }
{
    match instr {
        UnitInstr::Pnull => Some(Instr::Pnull),
        UnitInstr::Int(n) => Some(Instr::Int(integer_index(&tables.integers, *n))),
        UnitInstr::Str(bytes) => Some(Instr::Str(text_index(&tables.strings, bytes.as_slice()))),
        UnitInstr::Cset(set) => Some(Instr::Cset(text_index(&tables.sets, set.as_slice()))),
        UnitInstr::Var(index) => Some(variable_at(variables, *index)),
        UnitInstr::Keywd(keyword) => Some(Instr::Keywd(*keyword)),
        UnitInstr::Pop => Some(Instr::Pop),
        UnitInstr::Dup => Some(Instr::Dup),
        UnitInstr::Op(op) => Some(Instr::Op(*op)),
        UnitInstr::Llist(count) => Some(Instr::Llist(*count)),
        UnitInstr::Field(name) => Some(Instr::Field(text_index(&tables.fields, name.as_slice()))),
        UnitInstr::Invoke(count) => Some(Instr::Invoke(*count)),
        UnitInstr::Appl => Some(Instr::Appl),
        UnitInstr::Mark(label) => Some(Instr::Mark(address_in(labels, *label))),
        UnitInstr::Mark0 => Some(Instr::Mark0),
        UnitInstr::Unmark => Some(Instr::Unmark),
        UnitInstr::Eret => Some(Instr::Eret),
        UnitInstr::Esusp => Some(Instr::Esusp),
        UnitInstr::Limit => Some(Instr::Limit),
        UnitInstr::Lsusp => Some(Instr::Lsusp),
        UnitInstr::Efail => Some(Instr::Efail),
        UnitInstr::Chfail(label) => Some(Instr::Chfail(address_in(labels, *label))),
        UnitInstr::Goto(label) => Some(Instr::Goto(address_in(labels, *label))),
        UnitInstr::Loop(label) => Some(Instr::Loop(address_in(labels, *label))),
        UnitInstr::Bscan => Some(Instr::Bscan),
        UnitInstr::Escan => Some(Instr::Escan),
        UnitInstr::Ccase => Some(Instr::Ccase),
        UnitInstr::Init(label) => Some(Instr::Init(address_in(labels, *label))),
        UnitInstr::Psusp => Some(Instr::Psusp),
        UnitInstr::Pret => Some(Instr::Pret),
        UnitInstr::Pfail => Some(Instr::Pfail),
        UnitInstr::Create(label) => Some(Instr::Create(address_in(labels, *label))),
        UnitInstr::Coact => Some(Instr::Coact),
        UnitInstr::Coret => Some(Instr::Coret),
        UnitInstr::Cofail => Some(Instr::Cofail),
        UnitInstr::Lab(_) => None,
    }
}

// The instruction of the name of this index.
fn variable_at(variables: &[Instr], index: u32) -> Instr
    ensures { result ≡ variable_at variables.now index }
{
    match variables.get(index as usize) {
        Some(instr) => *instr,
        None => Instr::Local(0),
    }
}
