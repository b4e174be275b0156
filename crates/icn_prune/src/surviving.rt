// What stays of each table of a code.
ghost use Rattle.std.specs.Prelude.{◌≡◌, ◌<◌, ◌^◌, ◌++◌, ◌∷◌, true, [], length, map, slice_index_or, if◌then◌else◌, IfOk, OnOk};
ghost use Rattle.std.specs.List.{All, flat_map, list_all};
ghost use Rattle.icn_code.specs.Codes.{Proc, RecordType};
ghost use Rattle.icn_code.specs.CodeTables.{tables_of};
ghost use Rattle.icn_code.specs.Rules.{is_proc};
ghost use Rattle.icn_prune.specs.KeptCode.{MayBeKept, globals_in};
ghost use Rattle.icn_prune.specs.PrunedCode.{cset_in, fields_left, global_at, globals_from, integer_in, kept_from_place, kept_procs, start_stays, strings_left, survivors, taken_by, with_places};
ghost use Rattle.icn_prune.specs.PlaceViews.{procs_seen, survivors_seen};

use crate::entries::{CodeTable, kept_procs, push_taken};
use crate::places::Places;
use icn_code::{Code, LinkedProcedure, Start};
use std::alloc::{AllocError, Global};

/// The places of the entries that stay, table by table.
#[derive(Drop)]
pub struct SurvivingPlaces {
    pub strings: Places,
    pub csets: Places,
    pub integers: Places,
    pub fields: Places,
    pub globals: Places,
    pub procs: Places,
}

/// What stays of a code where these procedures are kept. The error is want of memory.
pub fn survivors(alloc: Global, code: &Code, keep: &[bool]) -> Result<SurvivingPlaces, AllocError>
    requires kept { MayBeKept (tables_of code.now) keep.now }
    ensures { IfOk result (λ S. survivors_seen S ≡ survivors (tables_of code.now) keep.now) }
{
    let entries = kept_procs(alloc, code, keep)?;
    survivors_of(alloc, code, keep, &entries)
}

// The same, where these procedures are kept.
fn survivors_of(
    alloc: Global,
    code: &Code,
    keep: &[bool],
    procs: &[&LinkedProcedure],
) -> Result<SurvivingPlaces, AllocError>
    requires kept { MayBeKept (tables_of code.now) keep.now }
    requires procs { procs_seen procs.now ≡ kept_procs keep.now (tables_of code.now).procs }
    ensures { IfOk result (λ S. survivors_seen S ≡ survivors (tables_of code.now) keep.now) }
{
    let globals = globals_left(alloc, code, keep, procs)?;
    let fields = fields_left(alloc, code, procs)?;
    let strings = strings_left(alloc, code, procs, &fields, &globals)?;
    let csets = csets_left(alloc, code, procs)?;
    let integers = integers_left(alloc, code, procs)?;
    let procs = procs_left(alloc, keep)?;
    Ok(SurvivingPlaces {
        strings,
        csets,
        integers,
        fields,
        globals,
        procs,
    })
}

// The procedures that are kept.
fn procs_left(alloc: Global, keep: &[bool]) -> Result<Places, AllocError>
    requires few { length keep.now < 2 ^ 32 }
    ensures { IfOk result (λ procs. procs.left.items ≡ kept_from_place 0 keep.now) }
{
    let numbers = kept_numbers(alloc, keep)?;
    Places::of_mentions(alloc, keep.len(), &numbers)
}

// Their numbers, in their order.
fn kept_numbers(alloc: Global, keep: &[bool]) -> Result<Vec<u32>, AllocError>
    requires few { length keep.now < 2 ^ 32 }
    ensures { IfOk result (λ numbers. numbers.items ≡ kept_from_place 0 keep.now) }
{
    let mut numbers = Vec::new(alloc);
    for (number, kept) in keep.iter().enumerate() {
        push_if(&mut numbers, *kept, number as u32)?;
    }
    Ok(numbers)
}

// Adds the place of an entry that stays.
fn push_if(places: &mut Vec<u32>, stays: bool, place: u32) -> Result<(), AllocError>
    ensures { OnOk result
        (places.new.items ≡ places.old.items ++ (if stays then place ∷ [] else [])) }
{
    if stays {
        places.push(place)?;
    }
    Ok(())
}

// The globals that stay.
fn globals_left(
    alloc: Global,
    code: &Code,
    keep: &[bool],
    procs: &[&LinkedProcedure],
) -> Result<Places, AllocError>
    requires ruled { list_all (is_proc (tables_of code.now)) (procs_seen procs.now) ≡ true }
    ensures { IfOk result (λ globals. globals.left.items ≡ globals_from keep.now
        (flat_map globals_in (procs_seen procs.now)) 0 (tables_of code.now).globals) }
{
    let mentioned = mentioned_globals(alloc, code, procs)?;
    let places = staying_globals(alloc, code, keep, &mentioned)?;
    Places::of_mentions(alloc, code.globals.len(), &places)
}

// The globals that procedures mention.
fn mentioned_globals(
    alloc: Global,
    code: &Code,
    procs: &[&LinkedProcedure],
) -> Result<Places, AllocError>
    requires ruled { list_all (is_proc (tables_of code.now)) (procs_seen procs.now) ≡ true }
    ensures { IfOk result
        (λ globals. globals.left.items ≡ with_places [] (flat_map globals_in (procs_seen procs.now))) }
{
    let mut places = Vec::new(alloc);
    push_taken(&mut places, procs, CodeTable::Globals)?;
    Places::of_mentions(alloc, code.globals.len(), &places)
}

// The places of the globals that stay, in their order.
fn staying_globals(
    alloc: Global,
    code: &Code,
    keep: &[bool],
    mentioned: &Places,
) -> Result<Vec<u32>, AllocError>
    ensures { IfOk result (λ places. places.items
        ≡ globals_from keep.now mentioned.now.left.items 0 (tables_of code.now).globals) }
{
    let mut places = Vec::new(alloc);
    for (place, global) in code.globals.iter().enumerate() {
        let place = place as u32;
        let stays = start_stays(keep, mentioned.stays(place), global.start);
        push_if(&mut places, stays, place)?;
    }
    Ok(places)
}

// Whether a global stays, by what it begins with and whether a kept procedure mentions it.
fn start_stays(keep: &[bool], mentioned: bool, start: Start) -> bool
    ensures { result ≡ start_stays keep.now mentioned start }
{
    match start {
        Start::Null => true,
        Start::Procedure(number) => match keep.get(number as usize) {
            Some(kept) => *kept,
            None => false,
        },
        Start::Record(_) => true,
        Start::Function(_) => mentioned,
    }
}

// The fields: those of records first.
fn fields_left(alloc: Global, code: &Code, procs: &[&LinkedProcedure]) -> Result<Places, AllocError>
    requires ruled { list_all (is_proc (tables_of code.now)) (procs_seen procs.now) ≡ true }
    ensures { IfOk result
        (λ fields. fields.left.items ≡ fields_left (tables_of code.now) (procs_seen procs.now)) }
{
    let mut places = Vec::new(alloc);
    push_record_fields(&mut places, code)?;
    push_taken(&mut places, procs, CodeTable::Fields)?;
    Places::of_mentions(alloc, code.fields.len(), &places)
}

fn push_record_fields(places: &mut Vec<u32>, code: &Code) -> Result<(), AllocError>
    ensures { OnOk result (places.new.items ≡ places.old.items
        ++ flat_map (λ (kind : RecordType). kind.fields) (tables_of code.now).records) }
{
    for kind in &code.records {
        places.extend_from_slice(&kind.fields)?;
    }
    Ok(())
}

// The strings: the names of fields, records, globals and procedures first.
fn strings_left(
    alloc: Global,
    code: &Code,
    procs: &[&LinkedProcedure],
    fields: &Places,
    globals: &Places,
) -> Result<Places, AllocError>
    requires ruled { list_all (is_proc (tables_of code.now)) (procs_seen procs.now) ≡ true }
    requires fields { All (λ place. place < length (tables_of code.now).fields) fields.now.left.items }
    requires globals { All (λ place. place < length (tables_of code.now).globals) globals.now.left.items }
    ensures { IfOk result (λ strings. strings.left.items ≡ strings_left (tables_of code.now)
        (procs_seen procs.now) fields.now.left.items globals.now.left.items) }
{
    let mut places = Vec::new(alloc);
    push_field_names(&mut places, code, &fields.left)?;
    push_record_names(&mut places, code)?;
    push_global_names(&mut places, code, &globals.left)?;
    push_proc_names(&mut places, procs)?;
    push_taken(&mut places, procs, CodeTable::Strings)?;
    Places::of_mentions(alloc, code.strings.len(), &places)
}

fn push_field_names(places: &mut Vec<u32>, code: &Code, fields: &[u32]) -> Result<(), AllocError>
    requires fields { All (λ place. place < length (tables_of code.now).fields) fields.now }
    ensures { OnOk result (places.new.items ≡ places.old.items
        ++ map (λ place. slice_index_or (tables_of code.now).fields place 0) fields.now) }
{
    for place in fields {
        places.push(code.fields[*place as usize])?;
    }
    Ok(())
}

fn push_record_names(places: &mut Vec<u32>, code: &Code) -> Result<(), AllocError>
    ensures { OnOk result (places.new.items ≡ places.old.items
        ++ map (λ (kind : RecordType). kind.name) (tables_of code.now).records) }
{
    for kind in &code.records {
        places.push(kind.name)?;
    }
    Ok(())
}

fn push_global_names(places: &mut Vec<u32>, code: &Code, globals: &[u32]) -> Result<(), AllocError>
    requires globals { All (λ place. place < length (tables_of code.now).globals) globals.now }
    ensures { OnOk result (places.new.items ≡ places.old.items
        ++ map (λ place. (global_at (tables_of code.now) place).name) globals.now) }
{
    for place in globals {
        places.push(code.globals[*place as usize].name)?;
    }
    Ok(())
}

fn push_proc_names(places: &mut Vec<u32>, procs: &[&LinkedProcedure]) -> Result<(), AllocError>
    ensures { OnOk result (places.new.items ≡ places.old.items
        ++ map (λ (entry : Proc). entry.name) (procs_seen procs.now)) }
{
    for entry in procs {
        places.push(entry.name)?;
    }
    Ok(())
}

fn csets_left(alloc: Global, code: &Code, procs: &[&LinkedProcedure]) -> Result<Places, AllocError>
    requires ruled { list_all (is_proc (tables_of code.now)) (procs_seen procs.now) ≡ true }
    ensures { IfOk result
        (λ csets. csets.left.items ≡ with_places [] (taken_by cset_in (procs_seen procs.now))) }
{
    let mut places = Vec::new(alloc);
    push_taken(&mut places, procs, CodeTable::Csets)?;
    Places::of_mentions(alloc, code.csets.len(), &places)
}

fn integers_left(
    alloc: Global,
    code: &Code,
    procs: &[&LinkedProcedure],
) -> Result<Places, AllocError>
    requires ruled { list_all (is_proc (tables_of code.now)) (procs_seen procs.now) ≡ true }
    ensures { IfOk result
        (λ integers. integers.left.items ≡ with_places [] (taken_by integer_in (procs_seen procs.now))) }
{
    let mut places = Vec::new(alloc);
    push_taken(&mut places, procs, CodeTable::Integers)?;
    Places::of_mentions(alloc, code.integers.len(), &places)
}
