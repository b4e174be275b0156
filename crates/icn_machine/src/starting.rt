// The start of a run.
ghost use Rattle.std.specs.Prelude.{◌≡◌, nat_le, IsSome, ◌++◌, ◌+◌, ◌≤◌, ◌<◌, ◌∷◌, [], Some, true, IfOk, OnOk, false, length, map, replicate, string_bytes, codes, find, slice_get, option_map};
ghost use Rattle.std.specs.List.{All, sum_by};
ghost use Rattle.std.specs.Option.{option_copied};
ghost use Rattle.std.specs.Str.{bytes_eq};
ghost use Rattle.icn_value.specs.Store.{Outside};
ghost use Rattle.icn_value.specs.Limited.{limits_of};
ghost use Rattle.icn_value.specs.declared.val.Val.TheVariants as Vals;
ghost use Rattle.icn_defs.specs.Running.{text_values};
ghost use Rattle.icn_heap.specs.Extents.{Extent, IsLive, value_in};
ghost use Rattle.icn_heap.specs.Heaps.{extent_of, heap_of};
ghost use Rattle.icn_code.specs.Codes.{proc_of};
ghost use Rattle.icn_code.specs.Rules.{is_start, name_of};
ghost use Rattle.icn_code.specs.CodeTables.{tables_of};
ghost use Rattle.icn_run.specs.Step.{first_globals, main_of, procedure_at, start_value, statics_of};
ghost use Rattle.icn_frames.specs.Stacks as flat;
ghost use Rattle.icn_coexp.specs.Transfers.{first_table};
ghost use Rattle.icn_control.specs.Machines.{IsSoundMachine};
ghost use Rattle.icn_control.specs.TakenOperands.{KeepsCounts};
ghost use Rattle.icn_vars.specs.Worlds.{world_of};
ghost use Rattle.icn_machine.specs.Starting.{BeginsWith, ChargesWords, StartsAs, WordsFit, about_nothing, bare, launch_with, world_charged};

use icn_calls::{add_nulls, take_parameters};
use icn_code::{Code, Global as Variable, LinkedProcedure, Start};
use icn_coexp::Stacks;
use icn_control::{Machine, list_of};
use icn_frames::{Cell, Frames, Stack};
use icn_heap::Heap;
use icn_value::{Limits, Val};
use icn_vars::{Halt, Stop, World};
use std::alloc::{AllocError, Global};

// The procedure that the global `main` begins with.
fn main_of(code: &Code) -> Option<u32>
    ensures { result ≡ main_of (tables_of code.now) }
{
    match main_global(code) {
        Some(global) => procedure_at(global.start),
        None => None,
    }
}

// The global `main`.
fn main_global(code: &Code) -> Option<&Variable>
    ensures { option_copied result
        ≡ find (λ global. bytes_eq (name_of (tables_of code.now).strings global) (codes "main"))
        (tables_of code.now).globals }
{
    code.globals.iter().find(|global| is_main(code, global))
}

fn is_main(code: &Code, global: &Variable) -> bool
    ensures { result ≡ bytes_eq (name_of (tables_of code.now).strings global.now) (codes "main") }
{
    match code.strings.get(global.name as usize) {
        Some(name) => name.as_slice() == b"main".as_slice(),
        None => false,
    }
}

fn procedure_at(start: Start) -> Option<u32>
    ensures { result ≡ procedure_at start }
{
    match start {
        Start::Procedure(place) => Some(place),
        Start::Null => None,
        Start::Record(_) => None,
        Start::Function(_) => None,
    }
}

/// The procedure of a place.
#[inline(always)]
pub fn proc_at(code: &Code, place: u32) -> Option<&LinkedProcedure>
    ensures { option_map (λ proc. proc_of proc.now) result ≡ slice_get (tables_of code.now).procs place }
{
    code.procs.get(place as usize)
}

// How many procedures a code has.
fn proc_count(code: &Code) -> usize
    ensures { result ≡ length (tables_of code.now).procs }
{
    code.procs.as_slice().len()
}

// How many records a code has.
fn record_count(code: &Code) -> usize
    ensures { result ≡ length (tables_of code.now).records }
{
    code.records.as_slice().len()
}

// The value that a global begins with.
fn start_value(code: &Code, start: Start) -> Val
    requires { is_start (length (tables_of code.now).records) (length (tables_of code.now).procs) start
        ≡ true }
    ensures value { (all : Extent) → value_in all result ≡ start_value (tables_of code.now) start }
    ensures live { (all : Extent) → IsLive all result }
{
    let procs = proc_count(code) as u32;
    let records = record_count(code) as u32;
    match start {
        Start::Null => Val::Null,
        Start::Procedure(place) => Val::Proc(place),
        Start::Record(place) => Val::Proc(procs + place),
        Start::Function(func) => Val::Proc(
            procs + records + func.number().saturating_sub(1) as u32,
        ),
    }
}

// Puts a value behind values. The error is want of memory.
fn add(vals: &mut Vec<Val>, val: Val) -> Result<(), AllocError>
    ensures { OnOk result (vals.new.items ≡ vals.old.items ++ val ∷ []) }
{
    vals.push(val)?;
    Ok(())
}

// The values that the globals begin with. The error is want of memory.
fn first_globals(code: &Code, alloc: Global) -> Result<Vec<Val>, AllocError>
    ensures values { IfOk result
        (λ vals. (all : Extent) → map (value_in all) vals.items ≡ first_globals (tables_of code.now)) }
    ensures live { IfOk result (λ vals. (all : Extent) → All (IsLive all) vals.items) }
{
    let mut vals = Vec::new(alloc);
    let mut rest = code.globals.as_slice();
    while let Some((first, others)) = rest.split_first() {
        add(&mut vals, start_value(code, first.start))?;
        rest = others;
    }
    Ok(vals)
}

// As many nulls as the procedures have statics. The error is want of memory.
fn first_statics(code: &Code, alloc: Global) -> Result<Vec<Val>, AllocError>
    ensures { IfOk result
        (λ vals. vals.items ≡ replicate (sum_by statics_of (tables_of code.now).procs) Vals.Null) }
{
    let mut vals = Vec::new(alloc);
    let mut rest = code.procs.as_slice();
    while let Some((first, others)) = rest.split_first() {
        add_nulls(&mut vals, first.statics)?;
        rest = others;
    }
    Ok(vals)
}

// That none of so many procedures did its `initial` yet. The error is want of memory.
fn none_begun(count: usize, alloc: Global) -> Result<Vec<bool>, AllocError>
    ensures { IfOk result (λ begun. begun.items ≡ replicate count false) }
{
    let mut begun = Vec::new(alloc);
    for i in 0..count {
        begun.push(false)?;
    }
    Ok(begun)
}

// Texts of words, whose bytes are charged to a heap that has none. The errors are 306 and want of memory.
fn word_values(heap: &mut Heap, alloc: Global, words: &[String]) -> Result<Vec<Val>, Stop>
    requires { (heap_of heap.old).strings ≡ 0 }
    ensures live { IfOk result (λ vals. All (IsLive (extent_of heap.new)) vals.items) }
    ensures values { IfOk result
        (λ vals. map (value_in (extent_of heap.new)) vals.items ≡ text_values (map string_bytes words.now)) }
    ensures step { ChargesWords (heap_of heap.old) (map string_bytes words.now) (heap_of heap.new) result }
{
    let mut vals = Vec::new(alloc);
    let mut rest = words;
    while let Some((word, others)) = rest.split_first() {
        let text = heap.build(word.as_bytes())?;
        add(&mut vals, Val::Text(text))?;
        rest = others;
    }
    Ok(vals)
}

// The world before `main` is called, and the texts of the words, whose bytes are charged. The errors are 306 and want of memory.
fn world_with_words(
    alloc: Global,
    code: &Code,
    words: &[String],
    limits: Limits,
) -> Result<(World, Vec<Val>), Stop>
    ensures world { IfOk result (λ pair. world_of pair.0
        ≡ world_charged (tables_of code.now) (limits_of limits) (map string_bytes words.now)) }
    ensures live { IfOk result (λ pair. All (IsLive (extent_of pair.0.heap)) pair.1.items) }
    ensures values { IfOk result (λ pair. map (value_in (extent_of pair.0.heap)) pair.1.items
        ≡ text_values (map string_bytes words.now)) }
    ensures step { WordsFit (limits_of limits) (map string_bytes words.now) result }
{
    let mut heap = Heap::new(alloc, limits)?;
    let vals = word_values(&mut heap, alloc, words)?;
    let globals = first_globals(code, alloc)?;
    let statics = first_statics(code, alloc)?;
    Ok((World::new(heap, globals, statics), vals))
}

// An error without the value that it is about.
fn about_nothing(stop: Stop) -> Halt
    ensures { result ≡ about_nothing stop }
{
    match stop {
        Stop::NoMemory => Halt::NoMemory,
        Stop::Error(number, _) => Halt::Error(number, None),
    }
}

/// The machine before the first instruction of `main`, which is called with a list of the words: their bytes and then the list
/// are charged, and a last parameter that collects gets a list of its own.
///
/// # Errors
///
/// `Error` without a value: 117 where the code has no `main`, which is looked for first, 306 where the words have more bytes than
/// strings may have, 307 where a list takes more cells than there may be. `NoMemory` where memory ran out.
pub fn start<K: Stack<Cell> + Drop>(
    alloc: Global,
    code: &Code,
    words: &[String],
    limits: Limits,
) -> Result<Machine<K>, Halt>
    ensures step { (outside : Outside)
        → StartsAs (tables_of code.now) (launch_with words.now limits outside) result }
    ensures sound { IfOk result (IsSoundMachine (tables_of code.now)) }
    ensures limits { IfOk result (λ m. m.limits ≡ limits) }
    ensures stack { IfOk result (λ m. IsSome m.stacks.table.running) }
{
    let Some(main) = main_of(code) else {
        return Err(Halt::Error(117, None));
    };
    match proc_at(code, main) {
        Some(proc) => start_main(alloc, code, main, proc, words, limits),
        None => unreachable!(),
    }
}

// Makes the locals with which a procedure begins that is called with a list of values, over these values. The errors are 307 and
// want of memory.
fn first_locals<K: Stack<Cell> + Drop>(
    alloc: Global,
    world: &mut World,
    vals: &mut Vec<Val>,
    proc: &LinkedProcedure,
) -> Result<(), Stop>
    requires collects { proc.now.collects ≡ true → 0 < proc.now.parameters }
    requires levels { 1 ≤ (heap_of world.old.heap).bounds.levels }
    requires vals { All (IsLive (extent_of world.old.heap)) vals.old.items }
    ensures step { BeginsWith (proc_of proc.now) world.old vals.old.items world.new vals.new.items result }
    ensures live { OnOk result (All (IsLive (extent_of world.new.heap)) vals.new.items) }
    ensures count { OnOk result (length vals.new.items ≡ proc.now.parameters + proc.now.locals) }
    ensures counts { OnOk result (KeepsCounts world.old world.new) }
{
    let mut frames: Frames<K> = bare_frames(alloc)?;
    let list = list_of(&mut frames, world, vals)?;
    keep_one(vals, list)?;
    take_parameters(
        &mut frames,
        world,
        vals,
        proc.collects,
        proc.parameters as usize,
    )?;
    add_nulls(vals, proc.locals)?;
    Ok(())
}

// A stack on which no procedure runs, so that what makes a list there sees no locals. The error is want of memory.
fn bare_frames<K: Stack<Cell> + Drop>(alloc: Global) -> Result<Frames<K>, AllocError>
    ensures { IfOk result (λ frames. frames.flat ≡ bare) }
{
    Frames::new(alloc, 0, &[], 0)
}

// Leaves one value in a room whose content before does not matter. The error is want of memory.
fn keep_one(vals: &mut Vec<Val>, val: Val) -> Result<(), AllocError>
    ensures { OnOk result (vals.new.items ≡ val ∷ []) }
{
    vals.clear();
    vals.push(val)?;
    Ok(())
}

// Calls `main`, which is this procedure of the code.
fn start_main<K: Stack<Cell> + Drop>(
    alloc: Global,
    code: &Code,
    main: u32,
    proc: &LinkedProcedure,
    words: &[String],
    limits: Limits,
) -> Result<Machine<K>, Halt>
    requires found { main_of (tables_of code.now) ≡ Some main }
    requires there { slice_get (tables_of code.now).procs main ≡ Some (proc_of proc.now) }
    ensures step { (outside : Outside)
        → StartsAs (tables_of code.now) (launch_with words.now limits outside) result }
    ensures sound { IfOk result (IsSoundMachine (tables_of code.now)) }
    ensures limits { IfOk result (λ m. m.limits ≡ limits) }
    ensures stack { IfOk result (λ m. IsSome m.stacks.table.running) }
{
    match world_with_words(alloc, code, words, limits) {
        Ok((world, vals)) => start_in(alloc, code, main, proc, words, limits, world, vals),
        Err(stop) => Err(about_nothing(stop)),
    }
}

// Calls it in the world with the texts of the words, which are these values.
fn start_in<K: Stack<Cell> + Drop>(
    alloc: Global,
    code: &Code,
    main: u32,
    proc: &LinkedProcedure,
    words: &[String],
    limits: Limits,
    mut world: World,
    mut vals: Vec<Val>,
) -> Result<Machine<K>, Halt>
    requires found { main_of (tables_of code.now) ≡ Some main }
    requires there { slice_get (tables_of code.now).procs main ≡ Some (proc_of proc.now) }
    requires world { world_of world
        ≡ world_charged (tables_of code.now) (limits_of limits) (map string_bytes words.now) }
    requires live { All (IsLive (extent_of world.heap)) vals.items }
    requires values { map (value_in (extent_of world.heap)) vals.items
        ≡ text_values (map string_bytes words.now) }
    requires paid { nat_le (0 + sum_by length (map string_bytes words.now)) (limits_of limits).strings
        ≡ true }
    ensures step { (outside : Outside)
        → StartsAs (tables_of code.now) (launch_with words.now limits outside) result }
    ensures sound { IfOk result (IsSoundMachine (tables_of code.now)) }
    ensures limits { IfOk result (λ m. m.limits ≡ limits) }
    ensures stack { IfOk result (λ m. IsSome m.stacks.table.running) }
{
    match first_locals::<K>(alloc, &mut world, &mut vals, proc) {
        Ok(()) => match machine_with(alloc, code, main, world, &vals, limits) {
            Ok(m) => Ok(m),
            Err(_) => Err(Halt::NoMemory),
        },
        Err(stop) => Err(about_nothing(stop)),
    }
}

// The machine of a world in which a procedure is begun with these locals. The error is want of memory.
fn machine_with<K: Stack<Cell> + Drop>(
    alloc: Global,
    code: &Code,
    main: u32,
    world: World,
    locals: &[Val],
    limits: Limits,
) -> Result<Machine<K>, AllocError>
    ensures world { IfOk result (λ m. m.world ≡ world) }
    ensures table { IfOk result (λ m. m.stacks.table ≡ first_table (flat.begin main locals.now 0)) }
    ensures turns { IfOk result (λ m. m.turns ≡ 0) }
    ensures begun { IfOk result (λ m. m.begun.items ≡ replicate (length (tables_of code.now).procs) false) }
    ensures limits { IfOk result (λ m. m.limits ≡ limits) }
{
    let begun = none_begun(code.procs.len(), alloc)?;
    let frames = Frames::new(alloc, main, locals, 0)?;
    let stacks = Stacks::new(alloc, frames)?;
    Ok(Machine {
        world,
        stacks,
        turns: 0,
        begun,
        limits,
    })
}
