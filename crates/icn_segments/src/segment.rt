// A segment: so many places in one block, which never moves.
ghost use Rattle.std.specs.Prelude.{◌≡◌, ◌<◌, length, replicate, get_or, slice_set, None, Some, IfOk};
ghost use Rattle.icn_segments.specs.Places.{IsFilled};

use crate::block::{BlockDeed, BlockStart, BlockValues, allocate, deallocate};
use std::alloc::{AllocError, Global};
use std::marker::Model;
use std_alloc::room::may_hold;

/// A block of 256 places. A clause sees what each holds: nothing, or a value. The block is freed as the segment is dropped.
pub struct Segment<T: Copy> {
    alloc: Global,
    start: BlockStart<T>,
    places: BlockValues<T>,
    deed: BlockDeed<T, Global>,
}

impl<T: Copy> Model for Segment<T> {
    ghost use Rattle.std.specs.Prelude.{List, Option};
    ghost use Rattle.icn_segments.specs.Blocks.{IsBlock};

    ghost Value = { List (Option T) };

    ghost view = { λ s. s.places.slots };

    ghost invariant = { λ s. IsBlock s.alloc s.start.ptr s.places.at s.places.slots s.deed.at s.deed.len s.deed.alloc };
}

impl<T: Copy> Segment<T> {
    /// A segment whose places hold nothing. An error is want of memory.
    pub fn new(alloc: Global) -> Result<Self, AllocError>
        ensures { IfOk result (λ segment. segment ≡ replicate 256 None) }
    {
        if !may_hold::<T>(256) {
            return Err(AllocError);
        }
        let (start, places, deed) = allocate(&alloc, 256)?;
        Ok(Segment {
            alloc,
            start,
            places,
            deed,
        })
    }

    /// Puts a value into a place, whatever it holds.
    #[inline(always)]
    pub fn put(&mut self, index: usize, v: T)
        requires { index < length self.old }
        ensures { self.new ≡ slice_set self.old index (Some v) }
    {
        self.places.write(self.start, index, v);
    }

    /// The value in a place, which must hold one.
    #[inline(always)]
    pub fn value(&self, index: usize) -> T
        requires { IsFilled self.now index }
        ensures { get_or self.now index None ≡ Some result }
    {
        *self.places.get(self.start, index)
    }
}

impl<T: Copy> Drop for Segment<T> {
    fn drop(self) {
        let Segment {
            alloc,
            start,
            places,
            deed,
        } = self;
        deallocate(&alloc, start, 256, places, deed);
    }
}
