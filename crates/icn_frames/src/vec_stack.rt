// A stack in one block.
ghost use Rattle.std.specs.Prelude.{◌≡◌, []};
ghost use Rattle.icn_frames.specs.VecStacks.{cells_of, spare_of};

use crate::stack::Stack;
use std::alloc::{AllocError, Global};

/// A stack whose cells lie in one block of memory, which moves as it grows.
#[derive(Drop)]
pub struct VecStack<T: Copy> {
    items: Vec<T>,
}

impl<T: Copy> VecStack<T> {
    /// A stack without cells, and without room. It takes no memory.
    pub fn new(alloc: Global) -> Self
        ensures cells { cells_of result ≡ [] }
        ensures spare { spare_of result ≡ 0 }
    {
        VecStack {
            items: Vec::new(alloc),
        }
    }
}

impl<T: Copy> Stack<T> for VecStack<T> {
    ghost use Rattle.std.proofs.Common.{arith};
    ghost use Rattle.std.proofs.lemmas.List.{length-reverse};

    ghost cells = { cells_of };

    ghost spare = { spare_of };

    fn empty(alloc: Global) -> Self {
        VecStack::new(alloc)
    }

    fn len(&self) -> u64 {
        self.items.len() as u64
    }

    fn reserve(&mut self, n: u64) -> Result<(), AllocError> {
        self.items.reserve(n as usize)
    }

    fn push(&mut self, v: T) {
        self.items.push_reserved(v);
    }

    fn pop(&mut self) -> T {
        match self.items.pop() {
            Some(v) => v,
            None => unreachable!(),
        }
    }

    fn get(&self, i: u64) -> T {
        self.items[i as usize]
    }

    fn set(&mut self, i: u64, v: T) {
        self.items[i as usize] = v;
    }

    fn cut(&mut self, len: u64) {
        self.items.truncate(len as usize);
    }

    fn copy_up(&mut self, from: u64, to: u64) {
        for i in from..to {
            let v = self.items[i as usize];
            self.items.push_reserved(v);
        }
    }

    ghost small = { λ s. Prim.omega (arith, length-reverse s.items.items, s.items.ok, s.items.small) };
}
