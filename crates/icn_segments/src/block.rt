// A block of memory: a row of places, each of which holds nothing or a value. These functions alone have a raw pointer, and
// each is proved by a walk of its code.
ghost use Rattle.std.specs.Prelude.{◌≡◌, ℕ, ◌<◌, List, Option, Some, None, length, replicate, get_or, slice_set, IfOk, ⊤};
ghost use Rattle.std.specs.Vec.Ownership.{FitsInBlock};
ghost use base.Fml.{ftrue};
ghost use denote.RawPtr.{Ptr};
ghost use Rattle.icn_segments.specs.Places.{IsFilled};
ghost use Rattle.icn_segments.specs.Ownership.{cells_own, cells_lent, deed_owns};

use std::alloc::{AllocError, Allocator};
use std::marker::{Model, PhantomData};
use std::mem::{align_of, size_of};

/// Where a block begins. It owns nothing.
pub struct BlockStart<T> {
    ptr: *mut T,
}

impl<T> Clone for BlockStart<T> {
    ghost is_clone = { λ x y. y ≡ x };

    ghost is_infallible = { λ _. ⊤ };

    fn clone(&self) -> Result<BlockStart<T>, AllocError> {
        Ok(*self)
    }
}

impl<T> Copy for BlockStart<T> {}

/// The owner of a block's places. It takes no memory of its own: the segment has the pointer.
pub struct BlockValues<T> {
    mark: PhantomData<*const T>,
    ghost at: { Ptr },
    ghost slots: { List (Option T) },
}

impl<T> Model for BlockValues<T> {
    ghost also_owns = { λ c. cells_own T.row c.at c.slots };

    ghost also_shares = { λ c _ κ. cells_lent T.row c.at c.slots κ };
}

/// The right to give a block back to its allocator, which is there once. It takes no memory of its own.
pub struct BlockDeed<T, A: Allocator> {
    mark: PhantomData<*const (T, A)>,
    ghost at: { Ptr },
    ghost len: { ℕ },
    ghost alloc: { A },
}

impl<T, A: Allocator> Model for BlockDeed<T, A> {
    ghost also_owns = { λ d. deed_owns T.row (A.dealloc_token d.alloc) d.at d.len };

    ghost also_shares = { λ _ _ _. ftrue };
}

// Takes a block of so many places, which hold nothing. An error is want of memory.
pub(crate) fn allocate<T, A: Allocator>(
    alloc: &A,
    len: usize,
) -> Result<(BlockStart<T>, BlockValues<T>, BlockDeed<T, A>), AllocError>
    requires { FitsInBlock T.row len }
    ensures { IfOk result (λ r. (r.1.at ≡ r.0.ptr) × (r.1.slots ≡ replicate len None) × (r.2.at ≡ r.0.ptr)
        × (r.2.len ≡ len) × (r.2.alloc ≡ alloc.now)) }
{
    match alloc.allocate(len * size_of::<T>(), align_of::<T>()) {
        Ok(block) => {
            let base = BlockStart {
                ptr: block as *mut T,
            };
            Ok((
                base,
                BlockValues { mark: PhantomData },
                BlockDeed { mark: PhantomData },
            ))
        }
        Err(error) => Err(error),
    }
}

// Gives a block back, whatever its places hold.
pub(crate) fn deallocate<T, A: Allocator>(
    alloc: &A,
    base: BlockStart<T>,
    len: usize,
    cells: BlockValues<T>,
    deed: BlockDeed<T, A>,
)
    requires { (cells.at ≡ base.ptr) × (length cells.slots ≡ len) × (deed.at ≡ base.ptr)
        × (deed.len ≡ len) × (deed.alloc ≡ alloc.now) }
{
    let BlockValues { mark: _ } = cells;
    let BlockDeed { mark: _ } = deed;
    unsafe {
        alloc.deallocate(base.ptr as *mut u8, len * size_of::<T>(), align_of::<T>());
    }
}

impl<T> BlockValues<T> {
    // Puts a value into a place, whatever it holds.
    #[inline(always)]
    pub(crate) fn write(&mut self, base: BlockStart<T>, index: usize, item: T)
        requires { (base.ptr ≡ self.old.at) × (index < length self.old.slots) }
        ensures { (self.new.at ≡ self.old.at)
            × (self.new.slots ≡ slice_set self.old.slots index (Some item)) }
    {
        unsafe { base.ptr.add(index).write(item) }
    }

    // The value in a place, which must hold one.
    #[inline(always)]
    pub(crate) fn get(&self, base: BlockStart<T>, index: usize) -> &T
        requires { (base.ptr ≡ self.now.at) × IsFilled self.now.slots index }
        ensures { get_or self.now.slots index None ≡ Some result.now }
    {
        unsafe { &*base.ptr.add(index) }
    }
}
