// The check of a program text.
ghost use Rattle.std.specs.Prelude.{◌≡◌, [], IfOk};
ghost use Rattle.icn_tree.specs.TreeOf.{declarations_of};
ghost use Rattle.icn_decls.specs.Faults.{context_faults};
ghost use Rattle.icn_decls.specs.CheckedTexts.{IsSpelled};
ghost use Rattle.icn_decls.specs.Views.{Checks, check_result};

use crate::decl::check_declarations;
use crate::fault::ContextFault;
use icn_tree::SourceFile;
use std::alloc::Global;

/// A program text that breaks no rule of its tokens and no context rule.
#[derive(Drop)]
pub struct Checked {
    text: SourceFile,
    ghost spelled: { ∥ IsSpelled (declarations_of text) ∥₁ },
    ghost context: { context_faults (declarations_of text) ≡ [] },
}

impl Checked {
    /// The program text.
    pub fn file(&self) -> &SourceFile
        ensures file { result.now ≡ self.now.text }
        ensures spelled { ∥ IsSpelled (declarations_of result.now) ∥₁ }
        ensures context { context_faults (declarations_of result.now) ≡ [] }
    {
        &self.text
    }
}

/// Takes a program text that breaks no context rule, as it is; any other is dropped. It is the tree of tokens as the scanner
/// gives them, and no rule of its tokens refuses it: `parse` gives such texts.
///
/// # Errors
///
/// `Broken` with the first context rule that the text breaks, in the order of places, and at one place in that of the
/// rules' numbers. `NoMemory` where memory ran out.
pub fn check(alloc: Global, file: SourceFile) -> Result<Checked, ContextFault>
    requires spelled { IsSpelled (declarations_of file) }
    ensures first { Checks (context_faults (declarations_of file)) (check_result result) }
    ensures same { IfOk result (λ checked. checked.text ≡ file) }
{
    check_declarations(alloc, &file.decls)?;
    Ok(Checked { text: file })
}
