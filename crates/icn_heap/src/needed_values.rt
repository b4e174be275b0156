// What is to stay as memory is given back.
ghost use Rattle.std.specs.Prelude.{◌≡◌, true, [], ◌∷◌, OnOk};
ghost use Rattle.std.specs.Option.{option_to_list};
ghost use Rattle.icn_value.specs.declared.val.Val.TheVariants.{Text as TextVal};
ghost use Rattle.icn_heap.specs.Extents.{Extent};
ghost use Rattle.icn_heap.specs.MarkedStructures.{is_structure, IsTakenOut};
ghost use Rattle.icn_heap.specs.NeededValues.{needed_length, needed_structures, AreNeeded, AreOfHeap};

use crate::spans::as_range;
use icn_strings::ByteRange;
use icn_value::{Span, Val};
use std::alloc::{AllocError, Global};

/// The texts and structures that are to stay as a heap gives memory back. Each may be there more than once.
#[derive(Drop)]
pub struct NeededValues {
    pub(crate) ranges: Vec<ByteRange>,
    pub(crate) structures: Vec<Val>,
}

impl NeededValues {
    /// Nothing. It takes no memory until something is added.
    pub fn new(alloc: Global) -> NeededValues
        ensures of_heap { (all : Extent) → AreOfHeap all result }
        ensures bytes { needed_length result ≡ 0 }
        ensures none { needed_structures result ≡ [] }
    {
        let ranges = Vec::new(alloc);
        let structures = Vec::new(alloc);
        NeededValues { ranges, structures }
    }

    // Adds a text.
    fn add_text(&mut self, span: Span) -> Result<(), AllocError>
        ensures { OnOk result (AreNeeded self.old self.new (TextVal span ∷ [])) }
    {
        self.ranges.push(as_range(span))?;
        Ok(())
    }

    // Adds a structure.
    fn add_structure(&mut self, val: Val) -> Result<(), AllocError>
        requires { is_structure val ≡ true }
        ensures { OnOk result (AreNeeded self.old self.new (val ∷ [])) }
    {
        self.structures.push(val)?;
        Ok(())
    }

    /// Adds a value, which is to stay. The error is want of memory.
    #[tactic(auto, using(crate::proofs::NeededSteps::needed_plain))]
    pub fn add(&mut self, val: Val) -> Result<(), AllocError>
        ensures { OnOk result (AreNeeded self.old self.new (val ∷ [])) }
    {
        match val {
            Val::Null => Ok(()),
            Val::Integer(_) => Ok(()),
            Val::Text(span) => self.add_text(span),
            Val::Chars(_) => Ok(()),
            Val::Std(_) => Ok(()),
            Val::Proc(_) => Ok(()),
            Val::Rec(id) => self.add_structure(Val::Rec(id)),
            Val::List(id) => self.add_structure(Val::List(id)),
            Val::Set(id) => self.add_structure(Val::Set(id)),
            Val::Table(id) => self.add_structure(Val::Table(id)),
            Val::Coexp(_) => Ok(()),
        }
    }

    // The structure that was added last, which is taken out.
    pub(crate) fn next_structure(&mut self) -> Option<Val>
        ensures { IsTakenOut self.old self.new result }
    {
        self.structures.pop()
    }

    /// Adds a value, if there is one. The error is want of memory.
    #[tactic(auto, using(crate::proofs::NeededSteps::needed_none))]
    pub fn add_optional(&mut self, val: Option<Val>) -> Result<(), AllocError>
        ensures { OnOk result (AreNeeded self.old self.new (option_to_list val)) }
    {
        match val {
            Some(val) => self.add(val),
            None => Ok(()),
        }
    }

    /// Adds values, which are to stay. The error is want of memory.
    pub fn add_all(&mut self, vals: &[Val]) -> Result<(), AllocError>
        ensures { OnOk result (AreNeeded self.old self.new vals.now) }
    {
        for val in vals {
            self.add(*val)?;
        }
        Ok(())
    }
}
