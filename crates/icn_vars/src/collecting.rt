// Memory that is given back: what a world and items have stays.
ghost use Rattle.std.specs.Prelude.{[], ◌∷◌, OnOk};
ghost use Rattle.icn_value.specs.declared.val.Val.TheVariants.{Table as TableVal};
ghost use Rattle.icn_heap.specs.NeededValues.{AreNeeded};
ghost use Rattle.icn_vars.specs.NeededItems.{item_vals, kept_vals, root_vals, variable_vals, world_vals};

use crate::words::HeldError;
use crate::world::World;
use icn_heap::NeededValues;
use icn_value::{Item, Root, Val, VarRef};
use std::alloc::AllocError;

/// Adds an item, which is to stay: the value, or the structure in which the variable is rooted and its key. The error is want of
/// memory.
pub fn add_item(item: Item, needed: &mut NeededValues) -> Result<(), AllocError>
    ensures { OnOk result (AreNeeded needed.old needed.new (item_vals item)) }
{
    match item {
        Item::Val(val) => needed.add(val),
        Item::Var(variable) => add_variable(variable, needed),
    }
}

/// Adds a variable, which is to stay: the structure in which it is rooted, and its key. The error is want of memory.
pub fn add_variable(variable: VarRef, needed: &mut NeededValues) -> Result<(), AllocError>
    ensures { OnOk result (AreNeeded needed.old needed.new (variable_vals variable)) }
{
    match variable {
        VarRef::Whole(root) => add_root(root, needed),
        VarRef::Part {
            root,
            place: _,
            len: _,
        } => add_root(root, needed),
    }
}

// Adds the structure that an element, a field or a key is of, and the key.
#[tactic(auto, using(icn_heap::proofs::NeededSteps::needed_none))]
fn add_root(root: Root, needed: &mut NeededValues) -> Result<(), AllocError>
    ensures { OnOk result (AreNeeded needed.old needed.new (root_vals root)) }
{
    match root {
        Root::Global(_) => Ok(()),
        Root::Static(_) => Ok(()),
        Root::Local(_) => Ok(()),
        Root::Element { list, number: _ } => needed.add(Val::List(list)),
        Root::Field { rec, place: _ } => needed.add(Val::Rec(rec)),
        Root::Key { table, key } => add_key(table, key, needed),
        Root::Keyword(_) => Ok(()),
    }
}

// Adds a table and a key.
fn add_key(table: u32, key: Val, needed: &mut NeededValues) -> Result<(), AllocError>
    ensures { OnOk result (AreNeeded needed.old needed.new (TableVal table ∷ key ∷ [])) }
{
    needed.add(Val::Table(table))?;
    needed.add(key)?;
    Ok(())
}

// Adds the value that an error is about, if one is kept.
#[tactic(auto, using(icn_heap::proofs::NeededSteps::needed_none))]
fn add_error(kept: Option<HeldError>, needed: &mut NeededValues) -> Result<(), AllocError>
    ensures { OnOk result (AreNeeded needed.old needed.new (kept_vals kept)) }
{
    match kept {
        Some(error) => needed.add_optional(error.value),
        None => Ok(()),
    }
}

// Adds the subject, the value of the error that is kept, globals and statics.
fn add_world(world: &World, needed: &mut NeededValues) -> Result<(), AllocError>
    ensures { OnOk result (AreNeeded needed.old needed.new (world_vals world.now)) }
{
    needed.add(Val::Text(world.pair.subject))?;
    add_error(world.words.kept, needed)?;
    needed.add_all(&world.globals)?;
    needed.add_all(&world.statics)?;
    Ok(())
}

impl World {
    ghost use Rattle.std.specs.Prelude.{◌≡◌, ◌+◌, ◌≤◌, List, ◌++◌, OnOk};
    ghost use Rattle.icn_strings.specs.Regions.{held_by};
    ghost use Rattle.icn_value.specs.declared.val.Val.{Val};
    ghost use Rattle.icn_heap.specs.Extents.{IsLive, KeepsMeaning};
    ghost use Rattle.icn_heap.specs.Heaps.{extent_of};
    ghost use Rattle.icn_heap.specs.MarkedStructures.{LeavesReached};
    ghost use Rattle.icn_heap.specs.NeededValues.{needed_length, needed_structures, AreOfHeap, IsNeeded};
    ghost use Rattle.icn_vars.specs.NeededItems.{reached_length, world_vals};
    ghost use Rattle.icn_vars.specs.Worlds.{Reach, reach_of, world_of};

    /// Gives back memory of structures and texts: those that are needed, those that the world has, and those that are reached from
    /// these stay. It answers how many texts stay, each as often as it was found.
    ///
    /// What the world stands for is the same, and so is what each value stands for that was ever made. A value that was of the
    /// heap and is needed is of it still. No more bytes are held then than these texts have together. The error is want of
    /// memory: then all texts stay, and perhaps all structures.
    pub fn collect(&mut self, needed: NeededValues) -> Result<u64, AllocError>
        requires { AreOfHeap (extent_of self.old.heap) needed }
        ensures world { world_of self.new ≡ world_of self.old }
        ensures means { KeepsMeaning (extent_of self.old.heap) (extent_of self.new.heap) }
        ensures live { (val : Val) → IsLive (extent_of self.old.heap) val → IsNeeded needed val
            → IsLive (extent_of self.new.heap) val }
        ensures reach { (locals : List Val) → reach_of self.new locals ≡ (let reach : Reach =
            record (reach_of self.old locals) { extent = extent_of self.new.heap } in reach) }
        ensures few { OnOk result (held_by (extent_of self.new.heap).strings
            ≤ needed_length needed + reached_length self.new) }
        ensures reached { OnOk result
            (LeavesReached self.old.heap self.new.heap (needed_structures needed ++ world_vals self.old)) }
    {
        let mut needed = needed;
        add_world(self, &mut needed)?;
        self.heap.collect(needed)
    }
}
