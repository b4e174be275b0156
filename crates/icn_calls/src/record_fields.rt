// Fields of records, which are variables.
ghost use Rattle.std.specs.Prelude.{◌≡◌, ◌∷◌, ◌<◌, ◌≤◌, [], Some, length, position, slice_get, IfErr, IfSome, MatchResult};
ghost use Rattle.icn_profile.specs.Numbers.{most_fields};
ghost use Rattle.law_names.specs.RowSizes.{FitSizes};
ghost use Rattle.icn_frames.specs.Stacks as flat;
ghost use Rattle.icn_code.specs.Codes.{RecordType, Tables};
ghost use Rattle.icn_code.specs.CodeTables.{tables_of};
ghost use Rattle.icn_heap.specs.Heaps.{extent_of, heap_of};
ghost use Rattle.icn_vars.specs.Outcomes.{IsLiveHalt};
ghost use Rattle.icn_vars.specs.Worlds.{IsLiveItem, item_in, reach_of, world_of};
ghost use Rattle.icn_run.specs.Stacks.{Frames as FramesRead, flat as calls};
ghost use Rattle.icn_run.specs.Step.{Store, field_applied, field_index};
ghost use Rattle.icn_control.specs.LiveStacks.{IsLiveStack, with_locals};
ghost use Rattle.icn_control.specs.StackAndWorld.{HaltsWith, RunsWith};
ghost use Rattle.icn_control.specs.StackViews.{stack_in};
ghost use Rattle.icn_calls.specs.Calling.{field_count, is_number};
ghost use Rattle.icn_control.specs.Soundness.{UnlessEnded};

use crate::callees::record_count;
use icn_code::Code;
use icn_control::value_of;
use icn_frames::{Cell, Frames, Stack};
use icn_value::{Item, Root, Val, VarRef};
use icn_vars::{Halt, World};

// The first place of a number.
fn place_among(numbers: &[u32], number: u32) -> Option<usize>
    ensures place { result ≡ position (is_number number) numbers.now }
    ensures within { IfSome result (λ place. place < length numbers.now) }
{
    numbers.iter().position(|other| *other == number)
}

// The first place of a number, among 65535 at most.
fn first_place(numbers: &[u32], number: u32) -> Option<u16>
    requires { length numbers.now ≤ most_fields }
    ensures place { result ≡ position (is_number number) numbers.now }
    ensures within { IfSome result (λ place. place < length numbers.now) }
{
    match place_among(numbers, number) {
        Some(place) => Some(place as u16),
        None => None,
    }
}

// The fields of a kind, which must be there.
fn fields_of(code: &Code, kind: u32) -> &[u32]
    requires { kind < length (tables_of code.now).records }
    ensures { (entry : RecordType) → slice_get (tables_of code.now).records kind ≡ Some entry
        → result.now ≡ entry.fields }
{
    code.records[kind as usize].fields.as_slice()
}

/// The first of the fields of a kind of records whose entry is this, where there is one. It takes no memory.
pub fn field_index(code: &Code, field: u32, kind: u16) -> Option<u16>
    ensures place { result ≡ field_index (tables_of code.now) field kind }
    ensures within { IfSome result (λ place. place < field_count (tables_of code.now) kind) }
{
    let place = kind as usize;
    let records = record_count(code);
    if place >= records {
        return None;
    }
    first_place(fields_of(code, kind as u32), field)
}

/// Pushes the variable of a field of a record.
///
/// The error is that of the item that has no value, 107 where it is no record, 207 where the record has no such field, or want
/// of memory.
pub fn push_field<K: Stack<Cell> + Drop>(
    frames: &mut Frames<K>,
    world: &World,
    code: &Code,
    field: u32,
    item: Item,
) -> Result<(), Halt>
    requires stack { (tables : Tables) × IsLiveStack tables (reach_of world.now []) frames.old.flat }
    requires item { IsLiveItem (with_locals (flat.local_count frames.old.flat) (reach_of world.now [])) item }
    requires sizes { FitSizes (field_count (tables_of code.now)) (heap_of world.now.heap) }
    ensures step { (st : Store FramesRead) → st.world ≡ world_of world.now → MatchResult result
        (λ _. RunsWith (field_applied calls (tables_of code.now) field (item_in (extent_of world.now.heap)
        item ∷ []) (stack_in (extent_of world.now.heap) frames.old.flat) st) st world.now frames.new.flat)
        (HaltsWith (field_applied calls (tables_of code.now) field (item_in (extent_of world.now.heap) item
        ∷ []) (stack_in (extent_of world.now.heap) frames.old.flat) st) st world.now
        (stack_in (extent_of world.now.heap) frames.new.flat)) }
    ensures live { (tables : Tables) → IsLiveStack tables (reach_of world.now []) frames.old.flat
        → UnlessEnded result (IsLiveStack tables (reach_of world.now []) frames.new.flat) }
    ensures halt { IfErr result (IsLiveHalt (reach_of world.now [])) }
{
    let val = value_of(frames, world, item)?;
    let Val::Rec(rec) = val else {
        return Err(Halt::Error(107, Some(val)));
    };
    let Some(place) = field_index(code, field, world.heap.kind(rec)) else {
        return Err(Halt::Error(207, Some(val)));
    };
    match frames.push(Item::Var(VarRef::Whole(Root::Field { rec, place }))) {
        Ok(()) => Ok(()),
        Err(_) => Err(Halt::NoMemory),
    }
}
