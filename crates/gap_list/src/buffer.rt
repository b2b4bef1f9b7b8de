//! A block of places with items at both ends, and a gap between them.
ghost use Rattle.std.specs.Prelude.{◌≡◌, ◌+◌, ◌-◌, ◌<◌, ◌≤◌, [], get_or, slice_get, slice_set, None, Some, IfOk};
ghost use Rattle.std.specs.List.{insert, remove};
ghost use Rattle.gap_list.specs.Inside.GapBuffer.{buffer_items, IsBuffer, Becomes, IsPlace};

use crate::block::{Block, Start, allocate, free};
use std::alloc::{AllocError, Global};
use std_alloc::room::may_hold;

/// The first `front` items are at the beginning of the block, and the others at its end.
pub struct GapBuffer<T> {
    start: Start,
    pub(crate) capacity: usize,
    pub(crate) size: usize,
    front: usize,
    block: Block<T, Global>,
    alloc: Global,
}

impl<T> GapBuffer<T> {
    /// An empty buffer with this many places.
    pub(crate) fn with_capacity(alloc: Global, capacity: usize) -> Result<Self, AllocError>
        ensures { IfOk result (λ r. IsBuffer r × (r.capacity ≡ capacity) × (buffer_items r ≡ [])) }
    {
        if !may_hold::<T>(capacity) {
            return Err(AllocError);
        }
        let (start, block) = allocate(&alloc, capacity)?;
        Ok(GapBuffer {
            start,
            capacity,
            size: 0,
            front: 0,
            block,
            alloc,
        })
    }

    /// Gives the block of an empty buffer back.
    pub(crate) fn destroy_empty(self)
        requires { IsBuffer self × (buffer_items self ≡ []) }
    {
        let GapBuffer {
            start,
            capacity,
            size: _,
            front: _,
            block,
            alloc,
        } = self;
        free(&alloc, start, capacity, block);
    }

    /// The place of item k.
    fn place(&self, k: usize) -> usize
        requires { IsBuffer self.now × (k < self.now.size) }
        ensures within { result < self.now.capacity }
        ensures place { IsPlace self.now k result }
        ensures item { get_or self.now.block.slots result None ≡ slice_get (buffer_items self.now) k }
    {
        if k < self.front {
            k
        } else {
            k + (self.capacity - self.size)
        }
    }

    /// Item k.
    pub(crate) fn get(&self, k: usize) -> &T
        requires { IsBuffer self.now × (k < self.now.size) }
        ensures { slice_get (buffer_items self.now) k ≡ Some result.now }
    {
        let place = self.place(k);
        self.block.get(self.start, place)
    }

    /// Moves the last item before the gap to the gap's end.
    fn step_left(&mut self)
        requires { IsBuffer self.old × (0 < self.old.front) }
        ensures items { Becomes self.old self.new (buffer_items self.old) }
        ensures front { self.new.front + 1 ≡ self.old.front }
    {
        let room = self.capacity - self.size;
        self.front -= 1;
        let item = self.block.read(self.start, self.front);
        self.block.write(self.start, self.front + room, item);
    }

    /// Moves the first item after the gap to the gap's beginning.
    fn step_right(&mut self)
        requires { IsBuffer self.old × (self.old.front < self.old.size) }
        ensures items { Becomes self.old self.new (buffer_items self.old) }
        ensures front { self.new.front ≡ self.old.front + 1 }
    {
        let room = self.capacity - self.size;
        let item = self.block.read(self.start, self.front + room);
        self.block.write(self.start, self.front, item);
        self.front += 1;
    }

    /// Moves the gap before item k.
    fn move_gap(&mut self, k: usize)
        requires { IsBuffer self.old × (k ≤ self.old.size) }
        ensures items { Becomes self.old self.new (buffer_items self.old) }
        ensures front { self.new.front ≡ k }
    {
        while k < self.front {
            self.step_left();
        }
        while self.front < k {
            self.step_right();
        }
    }

    /// Puts an item before item k.
    pub(crate) fn insert(&mut self, k: usize, item: T)
        requires { IsBuffer self.old × (k ≤ self.old.size) × (self.old.size < self.old.capacity) }
        ensures { Becomes self.old self.new (insert (buffer_items self.old) k item) }
    {
        self.move_gap(k);
        self.block.write(self.start, self.front, item);
        self.front += 1;
        self.size += 1;
    }

    /// Takes item k out.
    pub(crate) fn remove(&mut self, k: usize) -> T
        requires { IsBuffer self.old × (k < self.old.size) }
        ensures items { Becomes self.old self.new (remove (buffer_items self.old) k) }
        ensures value { slice_get (buffer_items self.old) k ≡ Some result }
    {
        self.move_gap(k);
        let room = self.capacity - self.size;
        let taken = self.block.read(self.start, self.front + room);
        self.size -= 1;
        taken
    }

    /// Replaces item k, which is returned.
    pub(crate) fn replace(&mut self, k: usize, item: T) -> T
        requires { IsBuffer self.old × (k < self.old.size) }
        ensures items { Becomes self.old self.new (slice_set (buffer_items self.old) k item) }
        ensures value { slice_get (buffer_items self.old) k ≡ Some result }
    {
        let place = self.place(k);
        let old = self.block.read(self.start, place);
        self.block.write(self.start, place, item);
        old
    }

    /// Moves all items of another buffer to this empty one.
    pub(crate) fn move_from(&mut self, other: &mut GapBuffer<T>)
        requires empty { IsBuffer self.old × (buffer_items self.old ≡ []) }
        requires fits { IsBuffer other.old × (other.old.size ≤ self.old.capacity) }
        ensures items { Becomes self.old self.new (buffer_items other.old) }
        ensures other { Becomes other.old other.new [] }
    {
        while other.size > 0 {
            let item = other.remove(other.size - 1);
            self.insert(0, item);
        }
    }
}
