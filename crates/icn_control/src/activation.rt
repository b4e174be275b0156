// The locals of the activation that runs.
ghost use Rattle.icn_frames.specs.Stacks as flat;

use icn_frames::{Cell, Frames, Stack};
use icn_value::Val;
use icn_vars::Locals;

/// The locals of the activation that runs on a stack.
#[derive(Drop)]
pub struct Activation<'a, K: Stack<Cell> + Drop> {
    pub frames: &'a mut Frames<K>,
}

impl<K: Stack<Cell> + Drop> Locals for Activation<'_, K> {
    ghost items = { λ l. flat.locals l.frames.now.flat };

    fn get(&self, index: u64) -> Val {
        self.frames.local_count();
        self.frames.local(index)
    }

    fn set(&mut self, index: u64, val: Val) {
        self.frames.local_count();
        self.frames.set_local(index, val);
    }
}
