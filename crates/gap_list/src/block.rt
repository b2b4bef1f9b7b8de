//! A block of memory: a row of places, each empty or holding an item. Only the five functions here touch a pointer.
ghost use Rattle.std.specs.Prelude.{◌≡◌, ◌<◌, List, Option, Some, None, length, replicate, get_or, slice_set, IfOk};
ghost use Rattle.std.specs.Vec.Ownership.{FitsInBlock};
ghost use denote.RawPtr.{Ptr};
ghost use Rattle.gap_list.specs.Inside.Places.{IsFilled};
ghost use Rattle.gap_list.specs.Inside.Ownership.{block_owns, block_lends};

use std::alloc::{AllocError, Allocator};
use std::marker::{Model, PhantomData};
use std::mem::{align_of, size_of};

/// Where a block begins. It owns nothing.
#[derive(Clone, Copy)]
pub struct Start {
    ptr: *mut u8,
}

/// The places of a block, and the right to give it back. It takes no memory: who has it knows where the block begins, and
/// how many places it has.
pub struct Block<T, A: Allocator> {
    mark: PhantomData<*const (T, A)>,
    ghost at: { Ptr },
    ghost slots: { List (Option T) },
    ghost alloc: { A },
}

impl<T, A: Allocator> Model for Block<T, A> {
    ghost also_owns = { λ b. block_owns T.row (A.dealloc_token b.alloc) b.at b.slots };

    ghost also_shares = { λ b _ κ. block_lends T.row b.at b.slots κ };
}

/// A block of this many empty places.
pub(crate) fn allocate<T, A: Allocator>(
    alloc: &A,
    places: usize,
) -> Result<(Start, Block<T, A>), AllocError>
    requires { FitsInBlock T.row places }
    ensures { IfOk result (λ r. (r.1.at ≡ r.0.ptr) × (r.1.slots ≡ replicate places None) × (r.1.alloc ≡ alloc.now)) }
{
    match alloc.allocate(places * size_of::<T>(), align_of::<T>()) {
        Ok(ptr) => Ok((Start { ptr }, Block { mark: PhantomData })),
        Err(error) => Err(error),
    }
}

/// Gives a block of empty places back.
pub(crate) fn free<T, A: Allocator>(alloc: &A, start: Start, places: usize, block: Block<T, A>)
    requires { (block.at ≡ start.ptr) × (block.slots ≡ replicate places None) × (block.alloc ≡ alloc.now) }
{
    let Block { mark: _ } = block;
    unsafe {
        alloc.deallocate(start.ptr, places * size_of::<T>(), align_of::<T>());
    }
}

impl<T, A: Allocator> Block<T, A> {
    /// Puts an item into an empty place.
    pub(crate) fn write(&mut self, start: Start, place: usize, item: T)
        requires { (start.ptr ≡ self.old.at) × (place < length self.old.slots) × (get_or self.old.slots place None ≡ None) }
        ensures { (self.new.at ≡ self.old.at) × (self.new.alloc ≡ self.old.alloc) × (self.new.slots ≡ slice_set self.old.slots place (Some item)) }
    {
        unsafe { (start.ptr as *mut T).add(place).write(item) }
    }

    /// Takes the item out of a place, which is empty from then on.
    pub(crate) fn read(&mut self, start: Start, place: usize) -> T
        requires { (start.ptr ≡ self.old.at) × IsFilled self.old.slots place }
        ensures value { get_or self.old.slots place None ≡ Some result }
        ensures slots { (self.new.at ≡ self.old.at) × (self.new.alloc ≡ self.old.alloc) × (self.new.slots ≡ slice_set self.old.slots place None) }
    {
        unsafe { (start.ptr as *mut T).add(place).read() }
    }

    /// The item in a place.
    pub(crate) fn get(&self, start: Start, place: usize) -> &T
        requires { (start.ptr ≡ self.now.at) × IsFilled self.now.slots place }
        ensures { get_or self.now.slots place None ≡ Some result.now }
    {
        unsafe { &*(start.ptr as *mut T).add(place) }
    }
}
