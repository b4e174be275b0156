// A stack over segments.
ghost use Rattle.std.specs.Prelude.{◌≡◌, ℕ, ◌+◌, ◌-◌, ◌*◌, ◌/◌, ◌^◌, ◌<◌, ◌≤◌, [], ◌∷◌, length, get_or, Option, Some, OnOk, OnErr};
ghost use Rattle.icn_segments.specs.Segmented.{place_at, with_place, values_to, AreWhole, AreFilled};

use crate::segment::Segment;
use icn_frames::Stack;
use std::alloc::{AllocError, Global};

/// A stack whose values never move: they lie in segments of 256 places each, one after the other. A segment is freed as the
/// stack is dropped.
#[derive(Drop)]
pub struct RawStack<T: Copy> {
    alloc: Global,
    segments: Vec<Segment<T>>,
    len: u64,
    ghost whole: { AreWhole segments.items },
    ghost filled: { AreFilled segments.items len },
    ghost within: { len ≤ 256 * length segments.items },
    ghost few: { length segments.items < 2 ^ 24 },
    ghost small: { length (values_to segments.items len) + (256 * length segments.items - len) < 2 ^ 63 },
}

// Puts a value into the place at an index, which must be there.
#[inline(always)]
fn put<T: Copy>(segments: &mut Vec<Segment<T>>, index: u64, v: T)
    requires within { index / 256 < length segments.old.items }
    requires whole { length (get_or segments.old.items (index / 256) []) ≡ 256 }
    ensures { segments.new.items ≡ with_place segments.old.items index v }
{
    segments[(index / 256) as usize].put((index % 256) as usize, v);
}

// The value in the place at an index, which must hold one.
#[inline(always)]
fn value_at<T: Copy>(segments: &Vec<Segment<T>>, index: u64) -> T
    requires within { index / 256 < length segments.now.items }
    requires filled { (v : T) × (place_at segments.now.items index ≡ Some v) }
    ensures { place_at segments.now.items index ≡ Some result }
{
    segments[(index / 256) as usize].value((index % 256) as usize)
}

impl<T: Copy> RawStack<T> {
    ghost use Rattle.icn_segments.specs.RawStacks.{values_of, room_of};

    /// A stack without values, and without room. It takes no memory.
    pub fn new(alloc: Global) -> Self
        ensures values { values_of result ≡ [] }
        ensures room { room_of result ≡ 0 }
    {
        RawStack {
            alloc,
            segments: Vec::new(alloc),
            len: 0,
        }
    }

    // For how many more values there is room.
    #[inline(always)]
    fn room(&self) -> u64
        ensures { result ≡ room_of self.now }
    {
        self.segments.len() as u64 * 256 - self.len
    }

    // Takes one segment more. After an error, which is want of memory, there is as much room as before.
    fn take_segment(&mut self) -> Result<(), AllocError>
        ensures values { values_of self.new ≡ values_of self.old }
        ensures ok { OnOk result (room_of self.new ≡ room_of self.old + 256) }
        ensures err { OnErr result (room_of self.new ≡ room_of self.old) }
    {
        if self.segments.len() >= 16777215 {
            return Err(AllocError);
        }
        self.segments.reserve(1)?;
        let segment = Segment::new(self.alloc)?;
        self.segments.push_reserved(segment);
        Ok(())
    }

    // Takes as many segments as room for `n` more values wants. After an error, which is want of memory, there is no less
    // room than before.
    #[inline(never)]
    fn take_segments(&mut self, n: u64) -> Result<(), AllocError>
        ensures values { values_of self.new ≡ values_of self.old }
        ensures room { room_of self.old ≤ room_of self.new }
        ensures ok { OnOk result (n ≤ room_of self.new) }
    {
        if n > 4294967040 - self.len {
            return Err(AllocError);
        }
        while self.room() < n {
            self.take_segment()?;
        }
        Ok(())
    }
}

impl<T: Copy> Stack<T> for RawStack<T> {
    ghost use Rattle.icn_segments.specs.RawStacks.{values_of, room_of};

    ghost cells = { values_of };

    ghost spare = { room_of };

    fn empty(alloc: Global) -> Self {
        RawStack::new(alloc)
    }

    #[inline(always)]
    fn len(&self) -> u64 {
        self.len
    }

    #[inline(always)]
    fn reserve(&mut self, n: u64) -> Result<(), AllocError> {
        if n <= self.room() {
            return Ok(());
        }
        self.take_segments(n)
    }

    #[inline(always)]
    fn push(&mut self, v: T) {
        let at = self.len;
        put(&mut self.segments, at, v);
        self.len = at + 1;
    }

    #[inline(always)]
    fn pop(&mut self) -> T {
        let at = self.len - 1;
        self.len = at;
        value_at(&self.segments, at)
    }

    #[inline(always)]
    fn get(&self, i: u64) -> T {
        value_at(&self.segments, i)
    }

    #[inline(always)]
    fn set(&mut self, i: u64, v: T) {
        put(&mut self.segments, i, v);
    }

    #[inline(always)]
    fn cut(&mut self, len: u64) {
        self.len = len;
    }

    fn copy_up(&mut self, from: u64, to: u64) {
        for i in from..to {
            let v = self.get(i);
            self.push(v);
        }
    }

    ghost small = { λ s. s.small };
}
