// The first context rule that a declaration breaks.
ghost use Rattle.std.specs.Prelude.{◌≡◌, ◌++◌, [], OnOk, length, map, nat_lt, if◌then◌else◌};
ghost use Rattle.std.specs.List.{flat_map};
ghost use Rattle.icn_profile.specs.Numbers.{most_names};
ghost use Rattle.icn_tree.specs.TreeOf.{locals_of, procedure_of, declaration_of};
ghost use Rattle.icn_decls.specs.Contexts.{fault, outermost};
ghost use Rattle.icn_decls.specs.Faults.{all_faults, fault_if_met, all_repeated, with_names, declared_names, initial_faults, procedure_faults, record_faults, names_after, declaration_faults, context_faults};
ghost use Rattle.icn_tree.specs.NameSets.{none_met, with_name, has};
ghost use Rattle.icn_decls.specs.Views.{Checks, fault_of, first_of};

use crate::context::Context;
use crate::expr::{check, check_all};
use crate::fault::{Broken, ContextFault};
use icn_profile::MOST_NAMES;
use icn_tree::{Decl, LocalDecl, Name, NameSet, Procedure, Rule};
use std::alloc::Global;

// How many parameters, locals and statics a procedure may have together, and how many fields a record.
const MOST: usize = MOST_NAMES as usize;

// The rule that a name breaks which was met, and otherwise meets it.
fn check_name<'a>(met: &mut NameSet<'a>, name: &'a Name, rule: Rule) -> Result<(), ContextFault>
    ensures first { Checks (fault_if_met rule (has met.old) name.now) result }
    ensures has { OnOk result (has met.new ≡ with_name (has met.old) name.now.text) }
{
    if met.meet(name.text.as_slice())? {
        Ok(())
    } else {
        Err(Broken::at(name.place, rule).into())
    }
}

// The rule that the first name breaks which was met.
fn check_names<'a>(met: &mut NameSet<'a>, names: &'a [Name], rule: Rule) -> Result<(), ContextFault>
    ensures first { Checks (all_repeated rule (has met.old) names.now) result }
    ensures has { OnOk result (has met.new ≡ with_names (has met.old) names.now) }
{
    for name in names {
        check_name(met, name, rule)?;
    }
    Ok(())
}

// The first name of locals and statics that breaks the rule of names declared twice.
fn check_locals<'a>(met: &mut NameSet<'a>, locals: &'a [LocalDecl]) -> Result<(), ContextFault>
    ensures { Checks (all_repeated Rule.C1 (has met.old) (flat_map (λ l. l.names) (map locals_of locals.now)))
        result }
{
    for local in locals {
        check_names(met, &local.names, Rule::C1)?;
    }
    Ok(())
}

// The rule that the names of a procedure break which it declares.
fn check_declared(alloc: Global, procedure: &Procedure) -> Result<(), ContextFault>
    ensures { Checks (all_repeated Rule.C1 none_met (declared_names (procedure_of procedure.now))) result }
{
    let mut met = NameSet::new(alloc);
    check_names(&mut met, &procedure.parameters, Rule::C1)?;
    check_locals(&mut met, &procedure.locals)
}

// Whether a procedure declares more than 65535 parameters, locals and statics.
fn declares_too_many(procedure: &Procedure) -> bool
    ensures { result ≡ nat_lt most_names (length (declared_names (procedure_of procedure.now))) }
{
    let mut count = procedure.parameters.len();
    for local in &procedure.locals {
        count = count.saturating_add(local.names.len());
    }
    count > MOST
}

// The rule that so many names break, at the name of the procedure or record that has them.
fn check_count(too_many: bool, name: &Name) -> Result<(), Broken>
    ensures { fault_of result ≡ first_of (if too_many then fault Rule.C7 name.now.place else []) }
{
    if too_many {
        return Err(Broken::at(name.place, Rule::C7));
    }
    Ok(())
}

// The first rule that a procedure breaks, behind declarations of these names.
fn check_procedure<'a>(
    alloc: Global,
    met: &mut NameSet<'a>,
    procedure: &'a Procedure,
) -> Result<(), ContextFault>
    ensures first { Checks (procedure_faults (has met.old) (procedure_of procedure.now)) result }
    ensures has { OnOk result (has met.new ≡ with_name (has met.old) procedure.now.name.text) }
{
    check_count(declares_too_many(procedure), &procedure.name)?;
    check_name(met, &procedure.name, Rule::C8)?;
    check_declared(alloc, procedure)?;
    check_bodies(procedure)?;
    Ok(())
}

// The first rule that the expressions of a procedure break.
fn check_bodies(procedure: &Procedure) -> Result<(), Broken>
    ensures { fault_of result ≡ first_of (initial_faults (procedure_of procedure.now).initial
        ++ all_faults outermost (procedure_of procedure.now).body) }
{
    if let Some(initial) = &procedure.initial {
        check(&initial.value, Context::outermost())?;
    }
    check_all(&procedure.body, Context::outermost())
}

// The first rule that a record breaks, behind declarations of these names.
fn check_record<'a>(
    alloc: Global,
    met: &mut NameSet<'a>,
    name: &'a Name,
    fields: &'a [Name],
) -> Result<(), ContextFault>
    ensures first { Checks (record_faults (has met.old) name.now fields.now) result }
    ensures has { OnOk result (has met.new ≡ with_name (has met.old) name.now.text) }
{
    check_count(fields.len() > MOST, name)?;
    check_name(met, name, Rule::C8)?;
    let mut in_record = NameSet::new(alloc);
    check_names(&mut in_record, fields, Rule::C6)
}

// The first rule that a declaration breaks, behind declarations of these names.
fn check_declaration<'a>(
    alloc: Global,
    met: &mut NameSet<'a>,
    declaration: &'a Decl,
) -> Result<(), ContextFault>
    ensures first { Checks (declaration_faults (has met.old) (declaration_of declaration.now)) result }
    ensures has { OnOk result (has met.new ≡ names_after (has met.old) (declaration_of declaration.now)) }
{
    match declaration {
        Decl::Global { .. } | Decl::Link { .. } | Decl::Invocable { .. } => Ok(()),
        Decl::Record { name, fields, .. } => check_record(alloc, met, name, fields),
        Decl::Procedure(procedure) => check_procedure(alloc, met, procedure),
    }
}

/// Checks the context rules of declarations. The error is the first rule that they break, with its place, or want of memory.
pub fn check_declarations(alloc: Global, declarations: &[Decl]) -> Result<(), ContextFault>
    ensures { Checks (context_faults (map declaration_of declarations.now)) result }
{
    let mut met = NameSet::new(alloc);
    for declaration in declarations {
        check_declaration(alloc, &mut met, declaration)?;
    }
    Ok(())
}
