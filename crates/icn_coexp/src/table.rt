// The table of co-expressions.
ghost use Rattle.std.specs.Prelude.{◌≡◌, ◌≢◌, ◌<◌, ◌^◌, ℕ, Option, Some, length, map, slice_get, IsSome, is_some, IfOk, OnOk, OnErr};
ghost use Rattle.icn_run.specs.Step.{Fresh, Exhausted};
ghost use Rattle.icn_coexp.specs.KeptEntries.{coexp_seen, running_seen};
ghost use Rattle.icn_coexp.specs.Transfers.{first_table, source, status_of, values_of, with_stack, with_new, with_copy, give, exhaust, went_to, Activates, KeepsOthers, KeepsRoom, OneIsActive};

use crate::entries::{
    CoexpEntry, RunningStack, Status, fail_to, give_to, is_exhausted, replace_status,
    set_activator, wait,
};
use icn_frames::{Cell, Frames, Stack};
use icn_value::Val;
use std::alloc::{AllocError, Global};
use std::marker::Model;

/// What a transfer came to.
#[derive(Clone, Copy, Debug, PartialEq, Eq)]
pub enum AfterTransfer {
    /// The active one was activated, with this value.
    Same(Val),
    /// Another one is active.
    Moved,
    /// The one that was to be entered is exhausted.
    Exhausted,
}

/// The co-expressions of a run, by their numbers, with their stacks. `&main` has the number 0.
///
/// A clause sees each of them, which one is active with the stack that runs, and for how many more cells that has room.
/// Where a hop is due no stack runs, and the active one is the exhausted one that was reached. Only `new`, `create` and
/// `refresh` take memory.
#[derive(Drop)]
pub struct Stacks<K: Stack<Cell> + Drop> {
    entries: Vec<CoexpEntry<K>>,
    active: u32,
    running: RunningStack<K>,
}

impl<K: Stack<Cell> + Drop> Model for Stacks<K> {
    ghost use Rattle.icn_coexp.specs.Transfers.{SeenStacks};

    ghost Value = { SeenStacks };

    ghost use Rattle.icn_coexp.specs.KeptEntries.{table_seen, room_of, AreInOrder};

    ghost view = { λ s.
        record { table = table_seen s.entries.items s.active s.running; spare = room_of s.running } };

    ghost invariant = { λ s. AreInOrder s.entries.items s.active s.running };
}

impl<K: Stack<Cell> + Drop> Stacks<K> {
    ghost use Rattle.std.specs.Borrow.{Lends, sem};
    ghost use Rattle.icn_coexp.specs.contracts.table.Stacks.{the_row};
    ghost use Rattle.icn_frames.specs.contracts.calls.Frames.{the_row as frames_row};

    /// `&main` alone, which runs on this stack. An error is want of memory.
    pub fn new(alloc: Global, main: Frames<K>) -> Result<Self, AllocError>
        ensures table { IfOk result (λ s. s.table ≡ first_table main.flat) }
        ensures spare { IfOk result (λ s. s.spare ≡ main.spare) }
    {
        let mut entries = Vec::new(alloc);
        entries.push(CoexpEntry {
            status: Status::Active,
            activator: 0,
            values: Vec::new(alloc),
            proc: 0,
            address: 0,
        })?;
        Ok(Stacks {
            entries,
            active: 0,
            running: RunningStack::On(main),
        })
    }

    /// The number of the active one, or where a hop is due of the one that was reached.
    pub fn active(&self) -> u32
        ensures number { result ≡ self.now.table.active }

        // At any time exactly one is active, or none where a hop is due.
        ensures one { OneIsActive self.now.table }

        // `&main` has begun, and is never exhausted.
        ensures begun { status_of 0 self.now.table ≢ Fresh }
        ensures never { status_of 0 self.now.table ≢ Exhausted }

        // What entered the active one last is there.
        ensures source { source self.now.table < length self.now.table.coexps }
    {
        self.active
    }

    /// The number of what entered the active one last.
    pub fn source(&self) -> u32
        ensures { result ≡ source self.now.table }
    {
        self.entries[self.active as usize].activator
    }

    /// How many co-expressions there are, `&main` among them.
    pub fn len(&self) -> u64
        ensures { result ≡ length self.now.table.coexps }
    {
        self.entries.len() as u64
    }

    /// Whether a stack runs, and no hop is due.
    pub fn runs(&self) -> bool
        ensures { result ≡ is_some self.now.table.running }
    {
        matches!(self.running, RunningStack::On(_))
    }

    /// All co-expressions by their numbers, to read them.
    pub fn entries(&self) -> &[CoexpEntry<K>]
        ensures { self.now.table.coexps ≡ map coexp_seen result.now }
    {
        &self.entries
    }

    /// The stack that runs, or that a hop is due, to read it.
    pub fn running(&self) -> &RunningStack<K>
        ensures { self.now.table.running ≡ running_seen result.now }
    {
        &self.running
    }

    /// How many values a co-expression was made with.
    pub fn value_count(&self, id: u32) -> u64
        requires { id < length self.now.table.coexps }
        ensures { result ≡ length (values_of id self.now.table) }
    {
        self.entries[id as usize].values.len() as u64
    }

    /// The stack of the active one, to run on. No hop may be due.
    pub fn frames(&mut self) -> &mut Frames<K>
        requires { IsSome self.old.table.running }
        ensures* writes_back { sem 𝓛 (Lends (the_row K.row K.Stack)
            (frames_row K.row K.Stack) self.entry result (with_stack self.old)) }
        ensures running { self.old.table.running ≡ Some result.now.flat }
        ensures spare { self.old.spare ≡ result.now.spare }
    {
        self.running.stack_mut()
    }

    /// One more co-expression, made with these values for this procedure, which begins at this address. Gives its number.
    ///
    /// An error is want of memory, and nothing has changed. There must be fewer than 2 ^ 32 co-expressions.
    pub fn create(
        &mut self,
        alloc: Global,
        locals: &[Val],
        proc: u32,
        address: u32,
    ) -> Result<u32, AllocError>
        requires few { length self.old.table.coexps < 2 ^ 32 }
        ensures number { IfOk result (λ id. id ≡ length self.old.table.coexps) }
        ensures made { OnOk result (self.new.table ≡ with_new locals.now proc address self.old.table) }
        ensures unchanged { OnErr result (self.new.table ≡ self.old.table) }
        ensures spare { self.new.spare ≡ self.old.spare }
    {
        let mut values = Vec::new(alloc);
        values.extend_from_slice(locals)?;
        self.add(alloc, values, proc, address)
    }

    /// One more co-expression, made as another one was, whatever that one or its procedure did since. Gives its number.
    ///
    /// An error is want of memory, and nothing has changed. There must be fewer than 2 ^ 32 co-expressions, and `&main` is
    /// never made anew.
    pub fn refresh(&mut self, alloc: Global, id: u32) -> Result<u32, AllocError>
        requires other { 0 < id }
        requires live { id < length self.old.table.coexps }
        requires few { length self.old.table.coexps < 2 ^ 32 }
        ensures number { IfOk result (λ id. id ≡ length self.old.table.coexps) }
        ensures made { OnOk result
            (self.new.table ≡ with_copy self.old.table (slice_get self.old.table.coexps id)) }
        ensures unchanged { OnErr result (self.new.table ≡ self.old.table) }
        ensures spare { self.new.spare ≡ self.old.spare }
    {
        let entry = &self.entries[id as usize];
        let proc = entry.proc;
        let address = entry.address;
        let mut values = Vec::new(alloc);
        values.extend_from_slice(&entry.values)?;
        self.add(alloc, values, proc, address)
    }

    // One more, made with these values.
    fn add(
        &mut self,
        alloc: Global,
        values: Vec<Val>,
        proc: u32,
        address: u32,
    ) -> Result<u32, AllocError>
        requires few { length self.old.table.coexps < 2 ^ 32 }
        ensures number { IfOk result (λ id. id ≡ length self.old.table.coexps) }
        ensures made { OnOk result (self.new.table ≡ with_new values.items proc address self.old.table) }
        ensures unchanged { OnErr result (self.new.table ≡ self.old.table) }
        ensures spare { self.new.spare ≡ self.old.spare }
    {
        let id = self.entries.len() as u32;
        let stack = Frames::new(alloc, proc, &values, address)?;
        let entry = CoexpEntry {
            status: Status::Fresh(stack),
            activator: 0,
            values,
            proc,
            address,
        };
        self.entries.push(entry)?;
        Ok(id)
    }

    /// Enters another co-expression with a value: the active one waits, and becomes what entered it last. Nothing changes
    /// where it is exhausted, or is the active one itself.
    ///
    /// No hop may be due, and the stack that runs must have room for an operand, as it has once one was popped.
    pub fn activate(&mut self, id: u32, v: Val) -> AfterTransfer
        requires live { id < length self.old.table.coexps }
        requires runs { IsSome self.old.table.running }
        requires room { 0 < self.old.spare }
        ensures went { Activates id v self.old.table result self.new.table }
        ensures others { KeepsOthers self.old.table.active id self.old.table.coexps self.new.table.coexps }
        ensures spare { KeepsRoom result self.old.spare self.new.spare }
    {
        if id == self.active {
            return AfterTransfer::Same(v);
        }
        if is_exhausted(&self.entries, id) {
            return AfterTransfer::Exhausted;
        }
        wait(&mut self.entries, self.active, &mut self.running);
        set_activator(&mut self.entries, id, self.active);
        let stack = give_to(&mut self.entries, id, v);
        self.running = RunningStack::On(stack);
        self.active = id;
        AfterTransfer::Moved
    }

    /// Gives a value to what entered the active one last; the active one waits. Where that is exhausted a hop is due.
    ///
    /// The active one must not be `&main`, no hop may be due, and the stack that runs must have room for an operand, as it
    /// has once one was popped.
    pub fn give(&mut self, v: Val) -> AfterTransfer
        requires other { 0 < self.old.table.active }
        requires runs { IsSome self.old.table.running }
        requires room { 0 < self.old.spare }
        ensures table { give v self.old.table ≡ Some self.new.table }
        ensures others { KeepsOthers self.old.table.active
            (source self.old.table) self.old.table.coexps self.new.table.coexps }
        ensures went { result ≡ went_to self.new.table }
    {
        let to = self.source();
        wait(&mut self.entries, self.active, &mut self.running);
        self.active = to;
        if is_exhausted(&self.entries, to) {
            return AfterTransfer::Exhausted;
        }
        let stack = give_to(&mut self.entries, to, v);
        self.running = RunningStack::On(stack);
        AfterTransfer::Moved
    }

    /// The active one is exhausted, and what entered it last fails, or the exhausted one that was reached passes the
    /// failure on. Where that is exhausted a hop is due.
    ///
    /// The active one, or the one that was reached, must not be `&main`.
    pub fn exhaust(&mut self) -> AfterTransfer
        requires other { 0 < self.old.table.active }
        ensures table { exhaust self.old.table ≡ Some self.new.table }
        ensures others { KeepsOthers self.old.table.active
            (source self.old.table) self.old.table.coexps self.new.table.coexps }
        ensures went { result ≡ went_to self.new.table }
    {
        let to = self.source();
        replace_status(&mut self.entries, self.active, Status::Exhausted);
        self.running = RunningStack::Hopping;
        self.active = to;
        if is_exhausted(&self.entries, to) {
            return AfterTransfer::Exhausted;
        }
        let stack = fail_to(&mut self.entries, to);
        self.running = RunningStack::On(stack);
        AfterTransfer::Moved
    }
}
