// Sets of names.
ghost use Rattle.std.specs.Prelude.{◌≡◌, IfOk, OnOk, not};
ghost use Rattle.icn_tree.specs.NameSets.{none_met, with_name};

use std::alloc::{AllocError, Global};
use std::collections::HashSet;

/// The names that were met so far, as they stand in a text.
#[derive(Drop)]
pub struct NameSet<'a> {
    names: HashSet<&'a [u8]>,
}

impl<'a> NameSet<'a> {
    ghost use Rattle.icn_tree.specs.NameSets.{has};

    /// None so far.
    pub fn new(alloc: Global) -> Self
        ensures { has result ≡ none_met }
    {
        NameSet {
            names: HashSet::new(alloc),
        }
    }

    /// Whether a name was met.
    pub fn has(&self, name: &'a [u8]) -> bool
        ensures { result ≡ has self.now name.now }
    {
        self.names.contains(name)
    }

    /// Adds a name, and answers whether it is a new one. An error is want of memory.
    pub fn meet(&mut self, name: &'a [u8]) -> Result<bool, AllocError>
        ensures added { IfOk result (λ added. added ≡ not (has self.old name.now)) }
        ensures has { OnOk result (has self.new ≡ with_name (has self.old) name.now) }
    {
        Ok(self.names.insert(name)?)
    }
}
