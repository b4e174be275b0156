// The code of a procedure.
ghost use Rattle.std.specs.Prelude.{◌≡◌, ◌+◌, ◌<◌, ◌≤◌, ◌++◌, ◌∷◌, [], IfOk, OnOk, drop, length, map};
ghost use Rattle.std.specs.List.{flat_map};
ghost use Rattle.icn_profile.specs.Numbers.{number_limit};
ghost use Rattle.icn_tree.specs.TreeOf.{all_of, initial_of, locals_of, procedure_of, tree_of};
ghost use Rattle.icn_unit.specs.declared.unit.NameKind.TheVariants.{Undeclared};
ghost use Rattle.icn_unit.specs.UnitViews.{proc_seen};
ghost use Rattle.icn_translate.specs.Drafts.{put, with_names, ◌▹◌};
ghost use Rattle.icn_unit.specs.declared.unit.UnitInstr.TheVariants.{Pfail};
ghost use Rattle.icn_translate.specs.OpenMarks.{Outermost as OutermostOpen};
ghost use Rattle.icn_translate.specs.ProcCodes.{first_draft, declared_entries, declared_texts, entry_of, kind_of, local_entries, local_texts, proc_code, texts_of};
ghost use Rattle.icn_translate.specs.NumbersTaken.{all_numbers, initial_numbers, local_numbers, numbers, procedure_numbers};
ghost use Rattle.icn_translate.specs.Room.{IsRoomFor, TakesAtMost, declared_numbers, numbers_given};
ghost use Rattle.icn_translate.specs.Translation.{body, bounded_code, initially, translate, unless_empty};
ghost use Rattle.icn_translate.specs.Views.{draft_of};

use crate::builder::{Builder, enter_name};
use crate::expr::is_empty;
use crate::marks::OpenMarks;
use icn_tree::{Bytes, Expr, Initial, LocalDecl, LocalKind, Name, Procedure};
use icn_unit::{NameKind, ProcCode, UnitInstr, UnitName};
use indexmap::IndexSet;
use std::alloc::{AllocError, Global};

/// The code of a procedure, whose labels, names and counts of operands have numbers of 32 bits.
///
/// # Errors
///
/// Want of memory.
pub fn proc_code(alloc: Global, procedure: &Procedure) -> Result<ProcCode, AllocError>
    requires room { procedure_numbers (procedure_of procedure.now) < number_limit }
    ensures { IfOk result (λ code. proc_seen code ≡ proc_code (procedure_of procedure.now)) }
{
    let mut builder = begin_draft(alloc, procedure)?;
    let declared = builder.all_names().len();
    put_procedure(&mut builder, procedure)?;
    let mut names = declared_entries(alloc, procedure)?;
    put_undeclared(&mut names, alloc, builder.all_names(), declared)?;
    Ok(ProcCode {
        name: Bytes::from_slice(alloc, procedure.name.text.as_slice())?,
        collects: procedure.is_variadic,
        names,
        instrs: builder.into_instrs(),
    })
}

// The draft before the first instruction: its names are those that are declared.
fn begin_draft<'a>(alloc: Global, procedure: &'a Procedure) -> Result<Builder<'a>, AllocError>
    requires { declared_numbers (procedure_of procedure.now) < number_limit }
    ensures draft { IfOk result (λ builder. draft_of builder ≡ first_draft (procedure_of procedure.now)) }
    ensures given { IfOk result
        (λ builder. numbers_given (draft_of builder) ≤ declared_numbers (procedure_of procedure.now)) }
{
    let names = declared_names(alloc, procedure)?;
    Ok(Builder::new(alloc, names))
}

// The names that a procedure declares.
fn declared_names<'a>(
    alloc: Global,
    procedure: &'a Procedure,
) -> Result<IndexSet<&'a [u8]>, AllocError>
    requires { declared_numbers (procedure_of procedure.now) < number_limit }
    ensures names { IfOk result (λ names. map (λ name. name.now) names.keys
        ≡ with_names [] (declared_texts (procedure_of procedure.now))) }
    ensures given { IfOk result
        (λ names. length names.keys ≤ declared_numbers (procedure_of procedure.now)) }
{
    let mut names = IndexSet::new(alloc);
    enter_names(&mut names, &procedure.parameters)?;
    enter_locals(&mut names, &procedure.locals)?;
    Ok(names)
}

fn enter_locals<'a>(
    names: &mut IndexSet<&'a [u8]>,
    locals: &'a [LocalDecl],
) -> Result<(), AllocError>
    requires { length names.old.keys + local_numbers (map locals_of locals.now) < number_limit }
    ensures names { OnOk result (map (λ name. name.now) names.new.keys ≡ with_names
        (map (λ name. name.now) names.old.keys) (flat_map local_texts (map locals_of locals.now))) }
    ensures given { OnOk result
        (length names.new.keys ≤ length names.old.keys + local_numbers (map locals_of locals.now)) }
{
    for local in locals {
        enter_names(names, &local.names)?;
    }
    Ok(())
}

fn enter_names<'a>(names: &mut IndexSet<&'a [u8]>, entries: &'a [Name]) -> Result<(), AllocError>
    requires { length names.old.keys + length entries.now < number_limit }
    ensures names { OnOk result (map (λ name. name.now) names.new.keys
        ≡ with_names (map (λ name. name.now) names.old.keys) (texts_of entries.now)) }
    ensures given { OnOk result
        (length names.new.keys ≤ length names.old.keys + length entries.now) }
{
    for entry in entries {
        enter_name(names, entry.text.as_slice())?;
    }
    Ok(())
}

// Writes the instructions of a procedure.
fn put_procedure<'a>(builder: &mut Builder<'a>, procedure: &'a Procedure) -> Result<(), AllocError>
    requires { IsRoomFor (initial_numbers (initial_of procedure.now.initial)
        + all_numbers (all_of procedure.now.body.items)) (draft_of builder.old) }
    ensures { OnOk result
        (draft_of builder.new ≡ (draft_of builder.old ▹ initially (initial_of procedure.now.initial)
        ▹ body (all_of procedure.now.body.items) ▹ put Pfail)) }
{
    put_initial(builder, &procedure.initial)?;
    put_body(builder, &procedure.body)?;
    builder.put(UnitInstr::Pfail)
}

fn put_initial<'a>(
    builder: &mut Builder<'a>,
    initial: &'a Option<Initial>,
) -> Result<(), AllocError>
    requires { IsRoomFor (initial_numbers (initial_of initial.now)) (draft_of builder.old) }
    ensures draft { OnOk result
        (draft_of builder.new ≡ initially (initial_of initial.now) (draft_of builder.old)) }
    ensures given { OnOk result
        (TakesAtMost (initial_numbers (initial_of initial.now)) (draft_of builder.old)
        (draft_of builder.new)) }
{
    match initial {
        None => Ok(()),
        Some(initial) => {
            let label = builder.label();
            builder.put_two(UnitInstr::Init(label), UnitInstr::Mark(label))?;
            builder.put_expr(&initial.value, OpenMarks::Outermost)?;
            builder.put_two(UnitInstr::Unmark, UnitInstr::Lab(label))
        }
    }
}

fn put_body<'a>(builder: &mut Builder<'a>, exprs: &'a [Expr]) -> Result<(), AllocError>
    requires { IsRoomFor (all_numbers (all_of exprs.now)) (draft_of builder.old) }
    ensures { OnOk result (draft_of builder.new ≡ body (all_of exprs.now) (draft_of builder.old)) }
{
    for expr in exprs {
        put_bounded(builder, expr)?;
    }
    Ok(())
}

// An expression of a body. An empty one has no code.
fn put_bounded<'a>(builder: &mut Builder<'a>, expr: &'a Expr) -> Result<(), AllocError>
    requires { IsRoomFor (1 + numbers (tree_of expr.now)) (draft_of builder.old) }
    ensures draft { OnOk result (draft_of builder.new ≡ unless_empty (tree_of expr.now)
        (bounded_code (translate OutermostOpen (tree_of expr.now))) (draft_of builder.old)) }
    ensures given { OnOk result
        (TakesAtMost (1 + numbers (tree_of expr.now)) (draft_of builder.old) (draft_of builder.new)) }
{
    if is_empty(expr) {
        return Ok(());
    }
    builder.put_bounded(expr, OpenMarks::Outermost)
}

// The names that a procedure declares: parameters, and then locals and statics as they are declared.
fn declared_entries(alloc: Global, procedure: &Procedure) -> Result<Vec<UnitName>, AllocError>
    ensures { IfOk result (λ entries. entries.items ≡ declared_entries (procedure_of procedure.now)) }
{
    let mut entries = Vec::new(alloc);
    put_entries(
        &mut entries,
        alloc,
        NameKind::Parameter,
        &procedure.parameters,
    )?;
    put_locals(&mut entries, alloc, &procedure.locals)?;
    Ok(entries)
}

fn put_locals(
    entries: &mut Vec<UnitName>,
    alloc: Global,
    locals: &[LocalDecl],
) -> Result<(), AllocError>
    ensures { OnOk result
        (entries.new.items ≡ entries.old.items ++ flat_map local_entries (map locals_of locals.now)) }
{
    for local in locals {
        put_entries(entries, alloc, kind_of(local.kind), &local.names)?;
    }
    Ok(())
}

fn put_entries(
    entries: &mut Vec<UnitName>,
    alloc: Global,
    kind: NameKind,
    names: &[Name],
) -> Result<(), AllocError>
    ensures { OnOk result
        (entries.new.items ≡ entries.old.items ++ map (λ name. entry_of kind name.text) names.now) }
{
    for name in names {
        put_entry(entries, alloc, kind, name.text.as_slice())?;
    }
    Ok(())
}

fn put_entry(
    entries: &mut Vec<UnitName>,
    alloc: Global,
    kind: NameKind,
    name: &[u8],
) -> Result<(), AllocError>
    ensures { OnOk result (entries.new.items ≡ entries.old.items ++ entry_of kind name.now ∷ []) }
{
    let name = Bytes::from_slice(alloc, name)?;
    entries.push(UnitName { kind, name })?;
    Ok(())
}

fn kind_of(kind: LocalKind) -> NameKind
    ensures { result ≡ kind_of kind }
{
    match kind {
        LocalKind::Local => NameKind::Local,
        LocalKind::Static => NameKind::Static,
    }
}

// The names that a procedure uses and does not declare, where so many are declared.
fn put_undeclared(
    entries: &mut Vec<UnitName>,
    alloc: Global,
    names: &[&[u8]],
    declared: usize,
) -> Result<(), AllocError>
    ensures { OnOk result (entries.new.items ≡ entries.old.items
        ++ map (entry_of Undeclared) (drop declared (map (λ name. name.now) names.now))) }
{
    if names.len() < declared {
        return Ok(());
    }
    let (_, undeclared) = names.split_at(declared);
    for name in undeclared {
        put_entry(entries, alloc, NameKind::Undeclared, name)?;
    }
    Ok(())
}
