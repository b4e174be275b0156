// The addresses of labels.
ghost use Rattle.std.specs.Prelude.{◌≡◌, ◌≤◌, ◌+◌, ◌∷◌, ℕ, List, IfOk, OnOk, count_by};
ghost use Rattle.icn_profile.specs.Numbers.{most_instructions};
ghost use Rattle.icn_unit.specs.declared.unit.UnitInstr.{UnitInstr};
ghost use Rattle.icn_unit.specs.UnitRules.{own_label};
ghost use Rattle.icn_link.specs.LinkFaults.{is_instruction};
ghost use Rattle.icn_link.specs.Resolving.{label_address};
ghost use Rattle.icn_link.specs.Views.{address_from, address_in};

use icn_unit::UnitInstr;
use indexmap::IndexMap;
use std::alloc::{AllocError, Global};

/// The address of each label of a procedure: how many instructions stand before it.
#[derive(Drop)]
pub struct LabelAddresses {
    pub addresses: IndexMap<u32, u32>,
    // how many instructions there are
    pub end: u32,
}

/// The addresses of the labels among instructions. The error is want of memory.
pub fn labels_of(alloc: Global, instrs: &[UnitInstr]) -> Result<LabelAddresses, AllocError>
    requires few { count_by is_instruction instrs.now ≤ most_instructions }
    ensures { IfOk result (λ labels. (label : ℕ) → address_in labels label ≡ label_address label instrs.now) }
{
    let mut labels = LabelAddresses {
        addresses: IndexMap::new(alloc),
        end: 0,
    };
    for instr in instrs {
        pass(&mut labels, instr)?;
    }
    Ok(labels)
}

// Goes on over an instruction. A label has its first address.
fn pass(labels: &mut LabelAddresses, instr: &UnitInstr) -> Result<(), AllocError>
    requires few { labels.now.end ≤ most_instructions }
    ensures addresses { OnOk result ((label : ℕ) (rest : List UnitInstr) →
        address_from labels.new label rest ≡ address_from labels.old label (instr.now ∷ rest)) }
    ensures end { OnOk result ((rest : List UnitInstr) → labels.new.end + count_by is_instruction rest
        ≡ labels.old.end + count_by is_instruction (instr.now ∷ rest)) }
{
    match own_label(instr) {
        Some(label) => {
            if labels.addresses.contains_key(&label) {
                return Ok(());
            }
            labels.addresses.insert(label, labels.end)?;
            Ok(())
        }
        None => {
            labels.end += 1;
            Ok(())
        }
    }
}

/// The label that stands there.
pub fn own_label(instr: &UnitInstr) -> Option<u32>
    ensures { result ≡ own_label instr.now }
{
    match instr {
        UnitInstr::Lab(label) => Some(*label),
        UnitInstr::Pnull
        | UnitInstr::Int(_)
        | UnitInstr::Str(_)
        | UnitInstr::Cset(_)
        | UnitInstr::Var(_)
        | UnitInstr::Keywd(_)
        | UnitInstr::Pop
        | UnitInstr::Dup
        | UnitInstr::Op(_)
        | UnitInstr::Llist(_)
        | UnitInstr::Field(_)
        | UnitInstr::Invoke(_)
        | UnitInstr::Appl
        | UnitInstr::Mark(_)
        | UnitInstr::Mark0
        | UnitInstr::Unmark
        | UnitInstr::Eret
        | UnitInstr::Esusp
        | UnitInstr::Limit
        | UnitInstr::Lsusp
        | UnitInstr::Efail
        | UnitInstr::Chfail(_)
        | UnitInstr::Goto(_)
        | UnitInstr::Loop(_)
        | UnitInstr::Bscan
        | UnitInstr::Escan
        | UnitInstr::Ccase
        | UnitInstr::Init(_)
        | UnitInstr::Psusp
        | UnitInstr::Pret
        | UnitInstr::Pfail
        | UnitInstr::Create(_)
        | UnitInstr::Coact
        | UnitInstr::Coret
        | UnitInstr::Cofail => None,
    }
}

/// The address of a label.
pub fn address_in(labels: &LabelAddresses, label: u32) -> u32
    ensures { result ≡ address_in labels.now label }
{
    match labels.addresses.get(&label) {
        Some(address) => *address,
        None => labels.end,
    }
}
