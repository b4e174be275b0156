// The locals of an activation, on a stack of which nothing else changes.
ghost use Rattle.std.specs.Prelude.{◌≡◌};
ghost use Rattle.icn_frames.specs.Stacks as flat;

use icn_frames::{Cell, Frames, Stack};
use icn_value::Val;
use icn_vars::Locals;
use std::marker::{Brand, PhantomData};

/// A stack as it was, and the loan by which it is changed: both are things that a type can name.
pub trait Earlier {
    ghost use Rattle.std.specs.Prelude.{ℕ};
    ghost use Rattle.icn_frames.specs.Stacks.{FlatStack};

    ghost stack: { FlatStack };

    ghost loan: { ℕ };
}

impl Earlier for Brand {
    ghost use Rattle.std.specs.Prelude.{[]};
    ghost use Rattle.icn_frames.specs.Stacks.{begin};

    ghost stack = { begin 0 [] 0 };

    ghost loan = { 0 };
}

/// The locals of the activation that runs on a stack, which is as it was but for these. The loan is named, so that a call which may
/// put other locals in this place is known to have left these.
#[derive(Drop)]
pub struct OwnLocals<'a, K: Stack<Cell> + Drop, B: Earlier> {
    pub frames: &'a mut Frames<K>,
    pub of: PhantomData<B>,
    ghost lent: { frames.ghost_name ≡ B.loan },
    ghost same: { flat.set_locals (flat.locals frames.now.flat) B.stack ≡ frames.now.flat },
}

impl<K: Stack<Cell> + Drop, B: Earlier> Locals for OwnLocals<'_, K, B> {
    ghost items = { λ l. flat.locals l.frames.now.flat };

    fn get(&self, index: u64) -> Val {
        self.frames.local_count();
        self.frames.local(index)
    }

    fn set(&mut self, index: u64, val: Val) {
        self.frames.local_count();
        self.frames.set_local(index, val);
    }
}
