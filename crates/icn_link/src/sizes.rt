// Programs that are too large.
ghost use Rattle.std.specs.Prelude.{◌≡◌, ◌≤◌, ◌∷◌, ◌++◌, [], List, ℕ, None, IfErr, IfOk, OnOk, length, map, count_by};
ghost use Rattle.std.specs.List.{flat_map, sum_by};
ghost use Rattle.icn_profile.specs.Numbers.{most_entries, most_fields, most_instructions, most_statics, most_variables};
ghost use Rattle.icn_unit.specs.PlainUnits.{PlainDecl};
ghost use Rattle.icn_unit.specs.UnitViews.{decl_seen, proc_seen};
ghost use Rattle.icn_link.specs.declared.fault.LinkFault.TheVariants.{K3};
ghost use Rattle.icn_link.specs.LinkFaults.{all_statics, count_told, field_counts, is_instruction, kind_counts, local_counts, over, record_sizes, size_of, static_counts, table_sizes};
ghost use Rattle.icn_link.specs.Views.{decls_seen, gathered_seen, procs_seen, texts_seen};

use crate::fault::LinkFault;
use crate::gathered::GatheredMentions;
use crate::labels::own_label;
use crate::variable::{locals_in, statics_in};
use icn_profile::{MOST_ENTRIES, MOST_FIELDS, MOST_INSTRUCTIONS, MOST_STATICS, MOST_VARIABLES};
use icn_unit::{ProcCode, UnitDecl, UnitInstr};
use indexmap::IndexSet;

const MOST_INSTRS: u64 = MOST_INSTRUCTIONS;

/// Refuses a number above a bound. The error is K3 with that number.
pub fn check_count(count: u64, most: u64) -> Result<(), LinkFault>
    ensures none { OnOk result ((rest : List ℕ) → over most (count ∷ rest) ≡ over most rest) }
    ensures fault { IfErr result (λ fault. (rest : List ℕ) → over most (count ∷ rest) ≡ Some fault) }
{
    if count > most {
        return Err(LinkFault::K3 { count });
    }
    Ok(())
}

/// Refuses procedures of too many instructions. The error is K3 with how many all have together.
pub fn check_instrs(procs: &[&ProcCode]) -> Result<(), LinkFault>
    ensures none { OnOk result (over most_instructions (sum_by size_of (procs_seen procs.now) ∷ []) ≡ None) }
    ensures fault { IfErr result
        (λ fault. over most_instructions (sum_by size_of (procs_seen procs.now) ∷ []) ≡ Some fault) }
{
    check_count(instrs_in(procs), MOST_INSTRS)
}

// How many instructions procedures have, as far as 64 bits can tell it.
fn instrs_in(procs: &[&ProcCode]) -> u64
    ensures { result ≡ count_told (sum_by size_of (procs_seen procs.now)) }
{
    let mut count: u64 = 0;
    for proc in procs {
        count = count.saturating_add(size_of(&proc.instrs));
    }
    count
}

fn size_of(instrs: &[UnitInstr]) -> u64
    ensures { result ≡ count_by is_instruction instrs.now }
{
    instrs
        .iter()
        .filter(|instr| own_label(instr).is_none())
        .count() as u64
}

/// Refuses tables of too many entries. The error is K3 with the first number of entries above the bound.
pub fn check_tables(
    tables: &GatheredMentions<'_>,
    decls: &[&UnitDecl],
    procs: &[&ProcCode],
) -> Result<(), LinkFault>
    ensures none { OnOk result (over most_entries
        (table_sizes (gathered_seen tables.now) (decls_seen decls.now) (procs_seen procs.now)) ≡ None) }
    ensures fault { IfErr result (λ fault. over most_entries
        (table_sizes (gathered_seen tables.now) (decls_seen decls.now) (procs_seen procs.now)) ≡ Some fault) }
{
    let counts = [
        tables.strings.len() as u64,
        tables.sets.len() as u64,
        tables.integers.len() as u64,
        tables.fields.len() as u64,
        records_in(decls),
        tables.globals.len() as u64,
        procs.len() as u64,
    ];
    check_counts(&counts)
}

fn check_counts(counts: &[u64]) -> Result<(), LinkFault>
    ensures none { OnOk result (over most_entries counts.now ≡ None) }
    ensures fault { IfErr result (λ fault. over most_entries counts.now ≡ Some fault) }
{
    for count in counts {
        check_count(*count, MOST_ENTRIES)?;
    }
    Ok(())
}

// How many records there are.
fn records_in(decls: &[&UnitDecl]) -> u64
    ensures { result ≡ length (record_sizes (decls_seen decls.now)) }
{
    let mut count: u64 = 0;
    for decl in decls {
        if let UnitDecl::Record(_, _) = decl {
            count += 1;
        }
    }
    count
}

/// Refuses procedures of too many statics together. The error is K3 with that number.
pub fn check_all_statics(globals: &IndexSet<&[u8]>, procs: &[&ProcCode]) -> Result<(), LinkFault>
    ensures none { OnOk result
        (over most_statics (all_statics (texts_seen globals.now.keys) (procs_seen procs.now) ∷ []) ≡ None) }
    ensures fault { IfErr result (λ fault.
        over most_statics (all_statics (texts_seen globals.now.keys) (procs_seen procs.now) ∷ []) ≡ Some fault) }
{
    check_count(all_statics(globals, procs), MOST_STATICS)
}

// How many statics procedures have together, as far as 64 bits can tell it.
fn all_statics(globals: &IndexSet<&[u8]>, procs: &[&ProcCode]) -> u64
    ensures { result ≡ count_told (all_statics (texts_seen globals.now.keys) (procs_seen procs.now)) }
{
    let mut count: u64 = 0;
    for proc in procs {
        count = count.saturating_add(statics_in(globals, &proc.names));
    }
    count
}

/// Refuses too many fields, or too many records. The error is K3 with that number, of the fields first.
pub fn check_kinds(tables: &GatheredMentions<'_>, decls: &[&UnitDecl]) -> Result<(), LinkFault>
    ensures none { OnOk result
        (over most_fields (kind_counts (gathered_seen tables.now) (decls_seen decls.now)) ≡ None) }
    ensures fault { IfErr result (λ fault.
        over most_fields (kind_counts (gathered_seen tables.now) (decls_seen decls.now)) ≡ Some fault) }
{
    check_count(tables.fields.len() as u64, MOST_FIELDS)?;
    check_count(records_in(decls), MOST_FIELDS)
}

/// Refuses a record of too many fields. The error is K3 with that number, of the first such record.
pub fn check_records(decls: &[&UnitDecl]) -> Result<(), LinkFault>
    ensures none { OnOk result (over most_fields (record_sizes (decls_seen decls.now)) ≡ None) }
    ensures fault { IfErr result
        (λ fault. over most_fields (record_sizes (decls_seen decls.now)) ≡ Some fault) }
{
    for decl in decls {
        check_record(decl)?;
    }
    Ok(())
}

fn check_record(decl: &UnitDecl) -> Result<(), LinkFault>
    ensures none { OnOk result ((rest : List ℕ)
        → over most_fields (field_counts (decl_seen decl.now) ++ rest) ≡ over most_fields rest) }
    ensures fault { IfErr result
        (λ fault. (rest : List ℕ)
        → over most_fields (field_counts (decl_seen decl.now) ++ rest) ≡ Some fault) }
{
    match decl {
        UnitDecl::Record(_, fields) => check_count(fields.len() as u64, MOST_FIELDS),
        UnitDecl::Global(_) => Ok(()),
        UnitDecl::Proc(_) => Ok(()),
        UnitDecl::Link(_) => Ok(()),
        UnitDecl::Invocable(_) => Ok(()),
    }
}

/// Refuses a procedure of too many parameters and other locals. The error is K3 with that number, of the first such
/// procedure.
pub fn check_locals(globals: &IndexSet<&[u8]>, procs: &[&ProcCode]) -> Result<(), LinkFault>
    ensures none { OnOk result
        (over most_variables (local_counts (texts_seen globals.now.keys) (procs_seen procs.now)) ≡ None) }
    ensures fault { IfErr result
        (λ fault. over most_variables (local_counts (texts_seen globals.now.keys) (procs_seen procs.now))
        ≡ Some fault) }
{
    for proc in procs {
        check_count(locals_in(globals, &proc.names), MOST_VARIABLES)?;
    }
    Ok(())
}

/// Refuses a procedure of too many statics. The error is K3 with that number, of the first such procedure.
pub fn check_statics(globals: &IndexSet<&[u8]>, procs: &[&ProcCode]) -> Result<(), LinkFault>
    ensures none { OnOk result
        (over most_variables (static_counts (texts_seen globals.now.keys) (procs_seen procs.now)) ≡ None) }
    ensures fault { IfErr result
        (λ fault. over most_variables (static_counts (texts_seen globals.now.keys) (procs_seen procs.now))
        ≡ Some fault) }
{
    for proc in procs {
        check_count(statics_in(globals, &proc.names), MOST_VARIABLES)?;
    }
    Ok(())
}
