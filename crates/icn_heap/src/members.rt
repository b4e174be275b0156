// Sets as a heap holds them, and one set among others that changes.
ghost use Rattle.std.specs.Prelude.{◌≡◌, ◌<◌, ◌^◌, [], OnOk, OnErr, slice_get, slice_index_or, length, is_some};
ghost use Rattle.std.specs.Option.{option_map};
ghost use Rattle.icn_structs.specs.Shelves.{IsSet, with_new, with_other};
ghost use Rattle.icn_structs.specs.PairLists.{value_of, with_value_of, without, KeysDiffer};
ghost use Rattle.icn_heap.specs.KeyTests.{key_eq};
ghost use Rattle.icn_heap.specs.ElementValues.{member_val, set_vals};
ghost use Rattle.icn_heap.specs.HeapParts.{with_entry};
ghost use Rattle.icn_heap.specs.NeededValues.{AreNeeded};

use crate::key::Key;
use crate::needed_values::NeededValues;
use icn_structs::{Pairs, Shelf};
use icn_value::Val;
use std::alloc::{AllocError, Global};

/// A set: each member, as it came, under its key.
pub type MemberMap = Pairs<Key, Val>;

/// Adds a set without members. `AllocError` is want of memory, and all is as it was then.
pub fn add_set(alloc: Global, sets: &mut Shelf<MemberMap>) -> Result<(), AllocError>
    ensures ok { OnOk result (sets.new.shelf ≡ with_new sets.old.shelf []) }
    ensures err { OnErr result (sets.new.shelf ≡ sets.old.shelf) }
{
    sets.push(Pairs::new(alloc))?;
    Ok(())
}

/// Adds a set behind the others. `AllocError` is want of memory, and all is as it was then.
pub fn add_members(sets: &mut Shelf<MemberMap>, members: MemberMap) -> Result<(), AllocError>
    ensures ok { OnOk result (sets.new.shelf ≡ with_new sets.old.shelf members) }
    ensures err { OnErr result (sets.new.shelf ≡ sets.old.shelf) }
{
    sets.push(members)?;
    Ok(())
}

/// Joins a member under its key to the others, unless that key is there. `AllocError` is want of memory.
#[tactic(auto, using(crate::proofs::KeyTests::same_tests))]
pub fn join_member(members: &mut MemberMap, key: Key, val: Val) -> Result<(), AllocError>
    ensures { OnOk result (members.new ≡ with_entry members.old key val) }
{
    if members.look(&key).is_none() {
        members.store(key, val)?;
    }
    Ok(())
}

/// Whether a set has a member of this key.
#[tactic(auto, using(crate::proofs::KeyTests::same_tests))]
pub fn has_at(sets: &Shelf<MemberMap>, set: u32, key: &Key) -> bool
    requires { IsSet sets.now.shelf.held set }
    ensures { result ≡ is_some (value_of key_eq (slice_index_or sets.now.shelf.things set []) key.now) }
{
    sets.at(set).look(key).is_some()
}

/// Stores a member under its key in a set. `AllocError` is want of memory, and all is as it was then.
#[tactic(auto, using(crate::proofs::KeyTests::same_tests))]
pub fn member_stored_at(
    sets: &mut Shelf<MemberMap>,
    set: u32,
    key: Key,
    val: Val,
) -> Result<(), AllocError>
    requires { IsSet sets.old.shelf.held set }
    ensures ok { OnOk result (sets.new.shelf
        ≡ with_other sets.old.shelf set
        (with_value_of key_eq (slice_index_or sets.old.shelf.things set []) key val)) }
    ensures err { OnErr result (sets.new.shelf ≡ sets.old.shelf) }
{
    sets.at_mut(set).store(key, val)?;
    Ok(())
}

/// The member at a place of a set, counted from 0. `None` comes exactly where there is no such place.
pub fn member_at(sets: &Shelf<MemberMap>, set: u32, place: u64) -> Option<Val>
    requires { IsSet sets.now.shelf.held set }
    ensures { result ≡ option_map member_val (slice_get (slice_index_or sets.now.shelf.things set []) place) }
{
    let (_, val) = sets.at(set).pair_at(place)?;
    Some(val)
}

/// Removes the member of this key, and answers whether there was one.
#[tactic(auto, using(crate::proofs::KeyTests::same_tests))]
pub fn member_removed_at(sets: &mut Shelf<MemberMap>, set: u32, key: &Key) -> bool
    requires { IsSet sets.old.shelf.held set }
    ensures found { result ≡ is_some (value_of key_eq (slice_index_or sets.old.shelf.things set []) key.now) }
    ensures members { sets.new.shelf
        ≡ with_other sets.old.shelf set
        (without key_eq (slice_index_or sets.old.shelf.things set []) key.now) }
{
    sets.at_mut(set).remove(key)
}

/// How many members a set has.
pub fn count_at(sets: &Shelf<MemberMap>, set: u32) -> u64
    requires { IsSet sets.now.shelf.held set }
    ensures count { result ≡ length (slice_index_or sets.now.shelf.things set []) }
    ensures small { result < 2 ^ 63 }
{
    sets.at(set).len()
}

/// No member of a set has the key of another. A call does nothing: it tells a caller's proof so.
#[tactic(auto, using(crate::proofs::KeyTests::same_tests))]
pub fn keys_of_members_differ(sets: &Shelf<MemberMap>, set: u32)
    requires { IsSet sets.now.shelf.held set }
    ensures { KeysDiffer key_eq (slice_index_or sets.now.shelf.things set []) }
{
    let _count = sets.at(set).len();
}

/// Adds the members of a set, which are to stay. `AllocError` is want of memory.
pub fn add_members_of(set: &MemberMap, needed: &mut NeededValues) -> Result<(), AllocError>
    ensures { OnOk result (AreNeeded needed.old needed.new (set_vals set.now)) }
{
    for place in 0..set.len() {
        needed.add_optional(member_of(set, place))?;
    }
    Ok(())
}

// The member at a place, counted from 0. `None` comes exactly where there is no such place.
fn member_of(set: &MemberMap, place: u64) -> Option<Val>
    ensures { result ≡ option_map member_val (slice_get set.now place) }
{
    let (_, val) = set.pair_at(place)?;
    Some(val)
}
