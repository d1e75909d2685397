ghost use Rattle.std.specs.Prelude.{◌≡◌, ◌+◌, ◌≤◌, ◌<◌, [], ◌∷◌, ◌++◌, OnOk, OnErr, IfOk, IfErr, IsOk, length, slice_get, slice_set, remove, Some};

use crate::memory::NoMemory;
use std::alloc::Global;
use std::marker::Model;

/// Items in order, with room that was made for more: a push into that room takes no memory.
/// Contracts see the items and the room.
#[derive(Drop)]
pub struct RoomyList<T> {
    items: Vec<T>,
}

impl<T> Model for RoomyList<T> {
    ghost use Rattle.std.specs.Prelude.{◌-◌, vec_len};
    ghost use Rattle.std.specs.Vec.{vec_capacity};
    ghost use Rattle.st_units.specs.Roomy.{Roomy};

    ghost Value = { Roomy T };

    ghost view = { λ l. record { items = l.items.items; room = vec_capacity l.items - vec_len l.items } };
}

impl<T> RoomyList<T> {
    /// The empty list, which takes no memory.
    pub fn make(alloc: Global) -> Self
        ensures { result.items ≡ [] }
    {
        RoomyList {
            items: Vec::new(alloc),
        }
    }

    /// The empty list with room for `room` items.
    pub fn with_room(alloc: Global, room: usize) -> Result<Self, NoMemory>
        ensures items { IfOk result (λ l. l.items ≡ []) }
        ensures room { IfOk result (λ l. room ≤ l.room) }
    {
        Ok(RoomyList {
            items: Vec::with_capacity(alloc, room)?,
        })
    }

    /// Makes room for `n` items more: the next `n` pushes take no memory and aren't refused.
    pub fn reserve(&mut self, n: usize) -> Result<(), NoMemory>
        ensures items { self.new.items ≡ self.old.items }
        ensures room { OnOk result (n ≤ self.new.room) }
        ensures kept { self.old.room ≤ self.new.room }
    {
        self.items.reserve(n)?;
        Ok(())
    }

    /// Puts the item last. Where there is room it isn't refused; a refusal hands it back.
    pub fn push(&mut self, item: T) -> Result<(), (T, NoMemory)>
        ensures ok { OnOk result (self.new.items ≡ self.old.items ++ item ∷ []) }
        ensures err { OnErr result (self.new.items ≡ self.old.items) }
        ensures back { IfErr result (λ e. e.0 ≡ item) }
        ensures granted { 0 < self.old.room → IsOk result }
        ensures room { self.old.room ≤ self.new.room + 1 }
    {
        match self.items.push(item) {
            Ok(()) => Ok(()),
            Err(failed) => Err((failed.value, NoMemory)),
        }
    }

    /// Puts the item last, into the room that was made.
    pub fn put(&mut self, item: T)
        requires { 0 < self.old.room }
        ensures items { self.new.items ≡ self.old.items ++ item ∷ [] }
        ensures room { self.old.room ≤ self.new.room + 1 }
    {
        match self.items.push(item) {
            Ok(()) => {}
            Err(_) => unreachable!(),
        }
    }

    /// How many items there are.
    pub fn len(&self) -> usize
        ensures { result ≡ length self.now.items }
    {
        self.items.len()
    }

    /// The item at place `i`, counted from 0.
    pub fn at(&self, i: usize) -> &T
        requires { i < length self.now.items }
        ensures { slice_get self.now.items i ≡ Some result.now }
    {
        &self.items[i]
    }

    /// Takes the item at place `i` out, which leaves room for one more.
    pub fn take_at(&mut self, i: usize) -> T
        requires { i < length self.old.items }
        ensures taken { slice_get self.old.items i ≡ Some result }
        ensures items { self.new.items ≡ remove self.old.items i }
        ensures room { self.new.room ≡ self.old.room + 1 }
    {
        self.items.remove(i)
    }

    /// Lets an empty list go, whatever its items would be.
    pub fn finish(self)
        requires { self.items ≡ [] }
    {
        self.items.destroy_empty()
    }

    /// All items, in order.
    pub fn items(&self) -> &[T]
        ensures { result.now ≡ self.now.items }
    {
        self.items.as_slice()
    }
}

impl<T: Drop> RoomyList<T> {
    /// Puts the item in the place of the one at `i`.
    pub fn replace(&mut self, i: usize, item: T)
        requires { i < length self.old.items }
        ensures items { self.new.items ≡ slice_set self.old.items i item }
        ensures room { self.new.room ≡ self.old.room }
    {
        self.items[i] = item;
    }

    /// Lets all items go, which leaves room for as many.
    pub fn clear(&mut self)
        ensures items { self.new.items ≡ [] }
        ensures room { self.new.room ≡ self.old.room + length self.old.items }
    {
        self.items.clear();
    }
}
