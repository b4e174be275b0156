// The stacks of levels that stand outside others.
ghost use Rattle.std.specs.Prelude.{◌≡◌, [], ◌∷◌, ◌+◌, ◌^◌, ◌<◌, ◌≤◌, length, slice_get, IfOk, OnOk, OnErr, IfSome};
ghost use Rattle.std.specs.Option.{option_map};
ghost use Rattle.icn_verify.specs.KeptOnce.{IsEntered};
ghost use Rattle.icn_verify.specs.Shapes.{look_of, before_mark, start_shape};

use crate::flat::Flat;
use crate::shape::{Level, LevelKind, ShapeView};
use indexmap::IndexSet;
use std::alloc::{AllocError, Global};
use std::marker::Model;

/// A level on an earlier stack.
#[derive(Clone, Copy, Debug, PartialEq, Eq, Hash)]
pub struct StackedLevel {
    pub level: Level,
    /// The number of the stack below.
    pub outer: u32,
}

/// The stacks of levels that stand outside others, each kept once and known by a number. The number 0 is that of the empty
/// stack, so two stacks are the same where their numbers are.
///
/// A clause sees the list of the stacks, each with the level next outside first.
#[derive(Drop)]
pub struct Arena {
    entries: IndexSet<StackedLevel>,
}

impl Model for Arena {
    ghost use Rattle.std.specs.Prelude.{List};
    ghost use Rattle.icn_verify.specs.declared.shape.Level.{Level as OneLevel};

    ghost Value = { List (List OneLevel) };

    ghost use Rattle.icn_verify.specs.Stacks.{stacks_of, IsOnce};

    ghost view = { λ a. stacks_of a.entries.keys };

    ghost invariant = { λ a. IsOnce a.entries.keys };
}

// The index of an entry, which goes last if it is new.
fn enter_level(
    entries: &mut IndexSet<StackedLevel>,
    entry: StackedLevel,
) -> Result<usize, AllocError>
    ensures entered { OnOk result (IsEntered entries.old.keys entry entries.new.keys) }
    ensures index { IfOk result (λ index. slice_get entries.new.keys index ≡ Some entry) }
    ensures unchanged { OnErr result (entries.new.keys ≡ entries.old.keys) }
{
    let (index, _) = entries.insert_full(entry)?;
    Ok(index)
}

// The number of the stack that an entry makes. The empty stack has the number 0.
fn number_of(index: usize) -> u32
    requires { index + 1 < 2 ^ 32 }
    ensures { result ≡ index + 1 }
{
    index as u32 + 1
}

impl Arena {
    ghost use Rattle.icn_verify.specs.Stacks.{stack_at, shape_in, sent_in, IsHeld, StacksGrow};
    ghost use Rattle.icn_verify.specs.Passing.{same_shape};

    /// The empty stack alone.
    pub fn new(alloc: Global) -> Arena
        ensures { result ≡ [] ∷ [] }
    {
        Arena {
            entries: IndexSet::new(alloc),
        }
    }

    /// The base alone, empty.
    pub fn start(&self, in_create: bool) -> Flat
        ensures shape { shape_in self.now result ≡ start_shape in_create }
        ensures held { IsHeld self.now result }
    {
        let _ = &self.entries;
        Flat {
            in_create,
            inner: Level::empty(LevelKind::Base),
            outer: 0,
        }
    }

    /// The number of the stack with one more level on it. There has to be room for one more number. `AllocError` is want of
    /// memory.
    pub fn nest(&mut self, level: Level, outer: u32) -> Result<u32, AllocError>
        requires held { outer < length self.old }
        requires room { length self.old < 2 ^ 32 }
        ensures grows { IfOk result (λ _. StacksGrow self.old self.new) }
        ensures more { OnOk result (length self.new ≤ length self.old + 1) }
        ensures held { IfOk result (λ number. number < length self.new) }
        ensures stack { IfOk result (λ number. stack_at self.new number ≡ level ∷ stack_at self.old outer) }
    {
        let index = enter_level(&mut self.entries, StackedLevel { level, outer })?;
        Ok(number_of(index))
    }

    /// The shape before the innermost mark.
    pub fn before_mark(&self, flat: Flat) -> Option<Flat>
        requires { IsHeld self.now flat }
        ensures shape { option_map (shape_in self.now) result ≡ before_mark (shape_in self.now flat) }
        ensures held { IfSome result (IsHeld self.now) }
    {
        let entries = &self.entries;
        let index = flat.outer.checked_sub(1)?;
        let entry = entries.get_index(index as usize)?;
        Some(Flat {
            in_create: flat.in_create,
            inner: entry.level,
            outer: entry.outer,
        })
    }

    /// Whether two shapes are the same.
    pub fn are_same(&self, one: Flat, other: Flat) -> bool
        requires one { IsHeld self.now one }
        requires other { IsHeld self.now other }
        ensures { result ≡ same_shape (shape_in self.now one) (shape_in self.now other) }
    {
        let _ = &self.entries;
        one == other
    }

    /// What an instruction can see of a shape.
    pub fn look(&self, flat: Flat) -> ShapeView
        requires { IsHeld self.now flat }
        ensures { result ≡ look_of (shape_in self.now flat) }
    {
        ShapeView {
            in_create: flat.in_create,
            inner: flat.inner,
            outside: self.before_mark(flat).map(|outer| outer.inner),
        }
    }
}
