//! `Roomy`: a list of items whose room contracts see beside the items.
//!
//! It is for what must be able to say "this takes no memory": where the items do not fill the room, an insertion succeeds and the
//! room stays what it was. `reserve` makes room, and nothing takes it away. The value is the record of both (`specs/Roomy.antt`),
//! so two of these with the same items may differ; `Seq` is the list whose value is its items alone.

ghost use Rattle.std.specs.Prelude.{◌≡◌, ◌+◌, ◌-◌, ◌<◌, ◌≤◌, ◌∷◌, ◌++◌, [], length, take, insert, remove, IfErr, OnOk, OnErr, IsOk, slice_get, slice_set};
ghost use Rattle.std.specs.Option.{option_copied};

use std::alloc::{AllocError, AllocFailed, Global};
use std::marker::Model;

/// A list of items in one allocation, with its room.
#[derive(Debug, Drop)]
pub struct Roomy<T> {
    items: Vec<T>,
}

impl<T> Model for Roomy<T> {
    ghost use Rattle.std.specs.Prelude.{vec_capacity};
    ghost use Rattle.vx_list.specs.Roomy.{Roomy as Roomed, roomy_code};

    ghost Value = { Roomed T };

    ghost coded = { roomy_code T.code };

    ghost view = { λ r. record { items = r.items.items; room = vec_capacity r.items } };
}

impl<T> Roomy<T> {
    /// No items and no room, which takes no memory.
    pub fn new(alloc: Global) -> Roomy<T>
        ensures { result.items ≡ [] }
    {
        Roomy {
            items: Vec::new(alloc),
        }
    }

    /// The items in order.
    pub fn as_slice(&self) -> &[T]
        ensures { result.now ≡ self.now.items }
    {
        self.items.as_slice()
    }

    /// The number of items.
    pub fn len(&self) -> usize
        ensures { result ≡ length self.now.items }
    {
        self.items.len()
    }

    /// How many items there is room for, with those that are there.
    pub fn room(&self) -> usize
        ensures { result ≡ self.now.room }
    {
        self.items.capacity()
    }

    /// The item at a place from 0, if there is one.
    pub fn get(&self, at: usize) -> Option<&T>
        ensures { option_copied result ≡ slice_get self.now.items at }
    {
        self.items.get(at)
    }

    /// Makes room for so many more items.
    pub fn reserve(&mut self, more: usize) -> Result<(), AllocError>
        ensures items { self.new.items ≡ self.old.items }
        ensures ok { OnOk result (length self.new.items + more ≤ self.new.room) }
        ensures err { OnErr result (self.new ≡ self.old) }
        ensures room { self.old.room ≤ self.new.room }
        ensures had_room { length self.old.items + more ≤ self.old.room → IsOk result }
    {
        self.items.reserve(more)
    }

    /// Takes the last item out, if there is one.
    pub fn pop(&mut self) -> Option<T>
        ensures was { result ≡ slice_get self.old.items (length self.old.items - 1) }
        ensures now { self.new.items ≡ take (length self.old.items - 1) self.old.items }
        ensures room { self.new.room ≡ self.old.room }
    {
        self.items.pop()
    }

    /// Takes an item out; those after it move down.
    pub fn remove(&mut self, at: usize) -> T
        requires { at < length self.old.items }
        ensures was { slice_get self.old.items at ≡ Some result }
        ensures now { self.new.items ≡ remove self.old.items at }
        ensures room { self.new.room ≡ self.old.room }
    {
        self.items.remove(at)
    }
}

impl<T: Drop> Roomy<T> {
    /// Puts an item at the end; where there is no memory, the error has the item.
    pub fn push(&mut self, item: T) -> Result<(), AllocFailed<T>>
        ensures ok { OnOk result (self.new.items ≡ self.old.items ++ item ∷ []) }
        ensures err { OnErr result (self.new.items ≡ self.old.items) }
        ensures returned { IfErr result (λ failed. failed.value ≡ item) }
        ensures room { self.old.room ≤ self.new.room }
        ensures had_room { length self.old.items < self.old.room → IsOk result }
        ensures within { length self.old.items < self.old.room → self.new.room ≡ self.old.room }
    {
        self.items.insert(self.items.len(), item)
    }

    /// Puts an item at a place, before those from there on; where there is no memory, the error has the item.
    pub fn insert(&mut self, at: usize, item: T) -> Result<(), AllocFailed<T>>
        requires { at ≤ length self.old.items }
        ensures ok { OnOk result (self.new.items ≡ insert self.old.items at item) }
        ensures err { OnErr result (self.new.items ≡ self.old.items) }
        ensures returned { IfErr result (λ failed. failed.value ≡ item) }
        ensures room { self.old.room ≤ self.new.room }
        ensures had_room { length self.old.items < self.old.room → IsOk result }
        ensures within { length self.old.items < self.old.room → self.new.room ≡ self.old.room }
    {
        self.items.insert(at, item)
    }

    /// Puts an item in the place of one, and gives that one.
    pub fn replace(&mut self, at: usize, item: T) -> T
        requires { at < length self.old.items }
        ensures was { slice_get self.old.items at ≡ Some result }
        ensures now { self.new ≡ record { items = slice_set self.old.items at item; room = self.old.room } }
    {
        std::mem::replace(&mut self.items[at], item)
    }
}
