// The open forms, the newest last.
ghost use Rattle.std.specs.Prelude.{◌≡◌, [], ◌∷◌, IfOk, MatchOption};
ghost use Rattle.icn_expr.specs.Views.{frame_of, stack_of};

use crate::frame::OpenForm;
use std::alloc::{AllocError, Global};

/// The open forms.
#[derive(Drop)]
pub struct OpenForms {
    pub frames: Vec<OpenForm>,
}

impl OpenForms {
    /// No open form.
    pub fn new(alloc: Global) -> OpenForms
        ensures { stack_of result ≡ [] }
    {
        OpenForms {
            frames: Vec::new(alloc),
        }
    }

    /// Opens a form. An error is want of memory.
    #[tactic(auto, using(crate::proofs::ViewFacts::newest_first))]
    pub fn push(&mut self, frame: OpenForm) -> Result<(), AllocError>
        ensures { IfOk result (λ done. stack_of self.new ≡ frame_of frame ∷ stack_of self.old) }
    {
        self.frames.push(frame)?;
        Ok(())
    }

    /// The newest open form, which is open no more.
    #[tactic(auto, using(crate::proofs::ViewFacts::newest_first))]
    pub fn pop(&mut self) -> Option<OpenForm>
        ensures { MatchOption result (stack_of self.old ≡ [])
            (λ frame. stack_of self.old ≡ frame_of frame ∷ stack_of self.new) }
    {
        match self.frames.pop() {
            Some(frame) => Some(frame),
            None => None,
        }
    }
}
