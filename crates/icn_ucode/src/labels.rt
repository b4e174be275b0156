// Sets of the labels that were met.
ghost use Rattle.std.specs.Prelude.{◌≡◌, OnOk};
ghost use Rattle.icn_ucode.specs.LabelSets.{no_labels, with_label};

use std::alloc::{AllocError, Global};
use std::collections::HashSet;

// Labels.
#[derive(Drop)]
pub struct LabelSet {
    labels: HashSet<u32>,
}

impl LabelSet {
    ghost use Rattle.icn_ucode.specs.LabelSets.{holds};

    /// None.
    pub fn new(alloc: Global) -> Self
        ensures { holds result ≡ no_labels }
    {
        LabelSet {
            labels: HashSet::new(alloc),
        }
    }

    /// Whether a label is in the set.
    pub fn has(&self, label: u32) -> bool
        ensures { result ≡ holds self.now label }
    {
        self.labels.contains(&label)
    }

    /// Adds a label to the set. `AllocError` is want of memory.
    pub fn add(&mut self, label: u32) -> Result<(), AllocError>
        ensures { OnOk result (holds self.new ≡ with_label (holds self.old) label) }
    {
        self.labels.insert(label)?;
        Ok(())
    }
}
