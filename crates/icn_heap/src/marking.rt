// Structures that are reached are marked, with what they hold, and the others are given back.
ghost use Rattle.std.specs.Prelude.{◌≡◌, OnOk};
ghost use Rattle.icn_heap.specs.Extents.{IsLive};
ghost use Rattle.icn_heap.specs.HeapParts.{extent_in};
ghost use Rattle.icn_heap.specs.Heaps.{parts_of};
ghost use Rattle.icn_heap.specs.NeededValues.{AreNeeded};
ghost use Rattle.icn_heap.specs.MarkedStructures.{marks_of, no_marks, is_unmarked, vals_of, with_marked, held_anew, AreReached, AreAllReached};

use crate::deques::add_items;
use crate::entries::add_table_values;
use crate::heap::Heap;
use crate::members::add_members_of;
use crate::needed_values::NeededValues;
use icn_value::Val;
use std::alloc::AllocError;

impl Heap {
    // Takes all marks away.
    pub(crate) fn unmark(&mut self)
        ensures parts { parts_of self.new ≡ parts_of self.old }
        ensures marks { marks_of self.new ≡ no_marks (parts_of self.old) }
    {
        self.lists.unmark();
        self.sets.unmark();
        self.tables.unmark();
        self.records.unmark();
    }

    // Marks a structure that is there, and tells whether it was not marked before. Other values are not marked.
    fn mark(&mut self, val: Val) -> bool
        ensures parts { parts_of self.new ≡ parts_of self.old }
        ensures marks { marks_of self.new ≡ with_marked (parts_of self.old) (marks_of self.old) val }
        ensures fresh { result ≡ is_unmarked (parts_of self.old) (marks_of self.old) val }
    {
        match val {
            Val::Null => false,
            Val::Integer(_) => false,
            Val::Text(_) => false,
            Val::Chars(_) => false,
            Val::Std(_) => false,
            Val::Proc(_) => false,
            Val::Rec(id) => self.records.mark(id),
            Val::List(id) => self.lists.mark(id),
            Val::Set(id) => self.sets.mark(id),
            Val::Table(id) => self.tables.mark(id),
            Val::Coexp(_) => false,
        }
    }

    // Adds what a structure holds, which is to stay.
    fn add_held(&self, val: Val, needed: &mut NeededValues) -> Result<(), AllocError>
        requires { IsLive (extent_in (parts_of self.now)) val }
        ensures { OnOk result (AreNeeded needed.old needed.new (vals_of (parts_of self.now) val)) }
    {
        match val {
            Val::Null => Ok(()),
            Val::Integer(_) => Ok(()),
            Val::Text(_) => Ok(()),
            Val::Chars(_) => Ok(()),
            Val::Std(_) => Ok(()),
            Val::Proc(_) => Ok(()),
            Val::Rec(id) => needed.add_all(self.records.at(id).values()),
            Val::List(id) => add_items(self.lists.at(id), needed),
            Val::Set(id) => add_members_of(self.sets.at(id), needed),
            Val::Table(id) => add_table_values(self.tables.at(id), needed),
            Val::Coexp(_) => Ok(()),
        }
    }

    // Marks a structure, if it is there and not marked yet, and adds what it holds.
    fn reach(&mut self, val: Val, needed: &mut NeededValues) -> Result<(), AllocError>
        requires { IsLive (extent_in (parts_of self.old)) val }
        ensures parts { parts_of self.new ≡ parts_of self.old }
        ensures marks { marks_of self.new ≡ with_marked (parts_of self.old) (marks_of self.old) val }
        ensures added { OnOk result
            (AreNeeded needed.old needed.new (held_anew (parts_of self.old) (marks_of self.old) val)) }
    {
        if self.mark(val) {
            self.add_held(val, needed)
        } else {
            Ok(())
        }
    }

    // Marks all structures that are reached, and adds what they hold. The error is want of memory, or so many rounds as no run
    // makes: they are bounded for the proof that the loop ends.
    pub(crate) fn mark_reached(&mut self, needed: &mut NeededValues) -> Result<(), AllocError>
        requires { AreReached (parts_of self.old) needed.old (marks_of self.old) needed.old }
        ensures parts { parts_of self.new ≡ parts_of self.old }
        ensures reached { OnOk result
            (AreAllReached (parts_of self.old) needed.old (marks_of self.new) needed.new) }
    {
        for _round in 0..u64::MAX {
            let Some(val) = needed.next_structure() else {
                return Ok(());
            };
            self.reach(val, needed)?;
        }
        Err(AllocError)
    }
}
