// Memory that is given back: what stacks have stays.
ghost use Rattle.std.specs.Prelude.{◌≡◌, ◌+◌, ◌≤◌, [], ◌∷◌, ◌++◌, OnOk};
ghost use Rattle.std.specs.List.{flat_map};
ghost use Rattle.icn_value.specs.Store.{Outside};
ghost use Rattle.icn_value.specs.declared.val.Val.TheVariants.{Text as TextVal};
ghost use Rattle.icn_strings.specs.Regions.{held_by};
ghost use Rattle.icn_heap.specs.Heaps.{extent_of};
ghost use Rattle.icn_heap.specs.MarkedStructures.{LeavesReached};
ghost use Rattle.icn_heap.specs.NeededValues.{length_of_vals, AreNeeded};
ghost use Rattle.icn_vars.specs.NeededItems.{reached_length, variable_vals, world_vals};
ghost use Rattle.icn_coexp.specs.KeptEntries.{running_seen, status_seen};
ghost use Rattle.icn_code.specs.Codes.{Tables};
ghost use Rattle.icn_control.specs.Machines.{IsSoundMachine, stack_seen, store_seen};
ghost use Rattle.icn_control.specs.NeededStacks.{content_vals, entry_vals, residual_vals, running_vals, stack_vals, status_vals, stacks_vals, why_vals};

use crate::machine::Machine;
use icn_coexp::{CoexpEntry, RunningStack, Stacks, Status};
use icn_frames::{Cell, CellContent, Frames, Stack, Why};
use icn_heap::NeededValues;
use icn_value::{Residual, Span, Val, VarRef};
use icn_vars::{add_item, add_variable};
use std::alloc::AllocError;

// Adds a text.
fn add_text(span: Span, needed: &mut NeededValues) -> Result<(), AllocError>
    ensures { OnOk result (AreNeeded needed.old needed.new (TextVal span ∷ [])) }
{
    needed.add(Val::Text(span))
}

// Adds a variable and what it held before.
fn add_old(variable: VarRef, old: Val, needed: &mut NeededValues) -> Result<(), AllocError>
    ensures { OnOk result (AreNeeded needed.old needed.new (variable_vals variable ++ old ∷ [])) }
{
    add_variable(variable, needed)?;
    needed.add(old)?;
    Ok(())
}

// Adds what a residual names.
#[tactic(auto, using(icn_heap::proofs::NeededSteps::needed_none))]
fn add_residual(residual: Residual, needed: &mut NeededValues) -> Result<(), AllocError>
    ensures { OnOk result (AreNeeded needed.old needed.new (residual_vals residual)) }
{
    match residual {
        Residual::TextBytes { text, .. } => add_text(text, needed),
        Residual::VariableBytes { variable, .. } => add_variable(variable, needed),
        Residual::ListItems { list, .. } => needed.add(Val::List(list)),
        Residual::SetMembers { set, .. } => needed.add(Val::Set(set)),
        Residual::TableValues { table, .. } => needed.add(Val::Table(table)),
        Residual::TableKeys { table, .. } => needed.add(Val::Table(table)),
        Residual::RecordFields { rec, .. } => needed.add(Val::Rec(rec)),
        Residual::FileLines { .. } => Ok(()),
        Residual::UndoAssign { variable, old } => add_old(variable, old, needed),
        Residual::UndoExchange {
            left,
            right,
            old_left,
            old_right,
            ..
        } => {
            add_old(left, old_left, needed)?;
            add_old(right, old_right, needed)?;
            Ok(())
        }
        Residual::UndoPosition { .. } => Ok(()),
        Residual::Counting { .. } => Ok(()),
        Residual::Sequence { .. } => Ok(()),
        Residual::Balanced { text, .. } => add_text(text, needed),
        Residual::Found { wanted, text, .. } => {
            add_text(wanted, needed)?;
            add_text(text, needed)?;
            Ok(())
        }
        Residual::Among { text, .. } => add_text(text, needed),
    }
}

// Adds what was suspended.
#[tactic(auto, using(icn_heap::proofs::NeededSteps::needed_none))]
fn add_suspended(why: Why, needed: &mut NeededValues) -> Result<(), AllocError>
    ensures { OnOk result (AreNeeded needed.old needed.new (why_vals why)) }
{
    match why {
        Why::Alt => Ok(()),
        Why::Op(residual) => add_residual(residual, needed),
        Why::Scan(pair) => add_text(pair.subject, needed),
        Why::Escan => Ok(()),
        Why::Proc => Ok(()),
    }
}

// Adds what a cell holds.
#[tactic(auto, using(icn_heap::proofs::NeededSteps::needed_none))]
fn add_content(content: CellContent, needed: &mut NeededValues) -> Result<(), AllocError>
    ensures { OnOk result (AreNeeded needed.old needed.new (content_vals content)) }
{
    match content {
        CellContent::Nothing => Ok(()),
        CellContent::Local(val) => needed.add(val),
        CellContent::Operand(item) => add_item(item, needed),
        CellContent::Suspended(why) => add_suspended(why, needed),
    }
}

// Adds the values of a stack, from the lowest cell up.
fn add_stack<K: Stack<Cell> + Drop>(
    frames: &Frames<K>,
    needed: &mut NeededValues,
) -> Result<(), AllocError>
    ensures { OnOk result (AreNeeded needed.old needed.new (stack_vals frames.now.flat)) }
{
    let len = frames.len();
    let mut i: u64 = 0;
    while i < len {
        add_content(frames.content_at(i), needed)?;
        i += 1;
    }
    Ok(())
}

// Adds the values of a stack that waits.
#[tactic(auto, using(icn_heap::proofs::NeededSteps::needed_none))]
fn add_status<K: Stack<Cell> + Drop>(
    status: &Status<K>,
    needed: &mut NeededValues,
) -> Result<(), AllocError>
    ensures { OnOk result (AreNeeded needed.old needed.new (status_vals (status_seen status.now))) }
{
    match status {
        Status::Fresh(_) => Ok(()),
        Status::Active => Ok(()),
        Status::Waiting(frames) => add_stack(frames, needed),
        Status::Exhausted => Ok(()),
    }
}

// Adds the values of a co-expression: those that it was made with, and those of its stack, if it waits.
fn add_coexp<K: Stack<Cell> + Drop>(
    entry: &CoexpEntry<K>,
    needed: &mut NeededValues,
) -> Result<(), AllocError>
    ensures { OnOk result (AreNeeded needed.old needed.new (entry_vals entry.now)) }
{
    needed.add_all(&entry.values)?;
    add_status(&entry.status, needed)?;
    Ok(())
}

// Adds the values of the stack that runs, if one does.
#[tactic(auto, using(icn_heap::proofs::NeededSteps::needed_none))]
fn add_running<K: Stack<Cell> + Drop>(
    running: &RunningStack<K>,
    needed: &mut NeededValues,
) -> Result<(), AllocError>
    ensures { OnOk result (AreNeeded needed.old needed.new (running_vals (running_seen running.now))) }
{
    match running {
        RunningStack::On(frames) => add_stack(frames, needed),
        RunningStack::Hopping => Ok(()),
    }
}

// Adds the values of all co-expressions.
fn add_coexps<K: Stack<Cell> + Drop>(
    entries: &[CoexpEntry<K>],
    needed: &mut NeededValues,
) -> Result<(), AllocError>
    ensures { OnOk result (AreNeeded needed.old needed.new (flat_map entry_vals entries.now)) }
{
    for entry in entries {
        add_coexp(entry, needed)?;
    }
    Ok(())
}

// Adds the values of all co-expressions and their stacks.
fn add_stacks<K: Stack<Cell> + Drop>(
    stacks: &Stacks<K>,
    needed: &mut NeededValues,
) -> Result<(), AllocError>
    ensures { OnOk result (AreNeeded needed.old needed.new (stacks_vals stacks.now.table)) }
{
    add_running(stacks.running(), needed)?;
    add_coexps(stacks.entries(), needed)?;
    Ok(())
}

// How many cells one waits with.
fn count_waiting<K: Stack<Cell> + Drop>(status: &Status<K>) -> u64 {
    match status {
        Status::Fresh(_) => 0,
        Status::Active => 0,
        Status::Waiting(frames) => frames.len(),
        Status::Exhausted => 0,
    }
}

// How many co-expressions there are, how many cells they wait with, and how many values they were made with.
fn count_entries<K: Stack<Cell> + Drop>(entries: &[CoexpEntry<K>]) -> u64 {
    let mut count: u64 = 0;
    for entry in entries {
        count = count
            .saturating_add(entry.values.len() as u64)
            .saturating_add(count_waiting(&entry.status))
            .saturating_add(1);
    }
    count
}

// How many cells the stack that runs has.
fn count_running<K: Stack<Cell> + Drop>(running: &RunningStack<K>) -> u64 {
    match running {
        RunningStack::On(frames) => frames.len(),
        RunningStack::Hopping => 0,
    }
}

impl<K: Stack<Cell> + Drop> Machine<K> {
    /// How much `collect` looks at: co-expressions and structures, and the values of these and of stacks. It takes no memory.
    pub fn held_values(&self) -> u64 {
        let cells = count_running(self.stacks.running()).saturating_add(count_entries(
            self.stacks.entries(),
        ));
        cells.saturating_add(self.world.heap.held_entries())
    }

    /// Gives back memory of structures and texts that nothing reaches. It answers how many texts stay, each as often as it was
    /// found.
    ///
    /// What the machine stands for is the same. No more bytes are held then than the texts have together that stacks, co-expressions, the world and
    /// structures have that stay. The error is want of memory: then all texts stay, and perhaps all structures.
    pub fn collect(&mut self) -> Result<u64, AllocError>
        requires { (tables : Tables) × IsSoundMachine tables self.old }
        ensures stack { stack_seen self.new ≡ stack_seen self.old }
        ensures store { (tables : Tables) (outside : Outside)
            → store_seen tables outside self.new ≡ store_seen tables outside self.old }
        ensures sound { (tables : Tables) → IsSoundMachine tables self.old → IsSoundMachine tables self.new }
        ensures table { self.new.stacks.table ≡ self.old.stacks.table }
        ensures turns { self.new.turns ≡ self.old.turns }
        ensures limits { self.new.limits ≡ self.old.limits }
        ensures begun { self.new.begun ≡ self.old.begun }
        ensures few { OnOk result (held_by (extent_of self.new.world.heap).strings
            ≤ length_of_vals (stacks_vals self.old.stacks.table) + reached_length self.new.world) }
        ensures reached { OnOk result (LeavesReached self.old.world.heap self.new.world.heap
            (stacks_vals self.old.stacks.table ++ world_vals self.old.world)) }
    {
        let mut needed = NeededValues::new(*self.begun.allocator());
        add_stacks(&self.stacks, &mut needed)?;
        self.world.collect(needed)
    }
}
