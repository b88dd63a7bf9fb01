//! `Seq`: a list of items in one allocation.
//!
//! Contracts see a `Seq<T>` as the list of its items. An empty one takes no memory; `push` may want some, and then the list is
//! as before.

ghost use Rattle.std.specs.Prelude.{◌≡◌, ◌==◌, ◌↔◌, ◌-◌, ◌<◌, ◌≤◌, ◌∷◌, ◌++◌, [], length, take, insert, remove, IfOk, IfErr, OnOk, OnErr, IfSome, IsSome, slice_get, slice_index_or, slice_set};
ghost use Rattle.std.specs.Borrow.{sem};
ghost use Rattle.std.specs.Option.{option_copied};

use crate::{Equal, TryClone};
use std::alloc::{AllocError, AllocFailed, Global};
use std::marker::Model;

/// A list of items.
#[derive(Debug, Drop)]
pub struct Seq<T> {
    items: Vec<T>,
}

impl<T> Model for Seq<T> {
    ghost use Rattle.std.specs.Prelude.{List};
    ghost use Rattle.std.specs.Coded.{coded_list};

    ghost Value = { List T };

    ghost coded = { coded_list T.code };

    ghost view = { λ s. s.items.items };
}

impl<T> Seq<T> {
    ghost use Rattle.vx_list.specs.Lends.{lends_item};

    /// The list of no items, which takes no memory.
    pub fn new(alloc: Global) -> Seq<T>
        ensures { result ≡ [] }
    {
        Seq {
            items: Vec::new(alloc),
        }
    }

    /// The list of no items, with room for so many.
    pub fn with_capacity(alloc: Global, room: usize) -> Result<Seq<T>, AllocError>
        ensures { IfOk result (λ list. list ≡ []) }
    {
        Ok(Seq {
            items: Vec::with_capacity(alloc, room)?,
        })
    }

    /// The list of a vector's items.
    pub fn from_vec(items: Vec<T>) -> Seq<T>
        ensures { result ≡ items.items }
    {
        Seq { items }
    }

    /// The items as a vector.
    pub fn into_vec(self) -> Vec<T>
        ensures { result.items ≡ self }
    {
        let Seq { items } = self;
        items
    }

    /// The items in order.
    pub fn as_slice(&self) -> &[T]
        ensures { result.now ≡ self.now }
    {
        self.items.as_slice()
    }

    /// The number of items.
    pub fn len(&self) -> usize
        ensures { result ≡ length self.now }
    {
        self.items.len()
    }

    /// Whether there is no item.
    pub fn is_empty(&self) -> bool
        ensures { result ≡ (length self.now == 0) }
    {
        self.items.is_empty()
    }

    /// The item at a place, to be written: what is written changes that place alone.
    pub fn get_mut(&mut self, at: usize) -> Option<&mut T>
        ensures* writes { sem 𝓛 (lends_item T.row self.entry at result) }
        ensures there { IsSome result ↔ (at < length self.old) }
        ensures item { IfSome result (λ item. item.now ≡ slice_index_or self.old at item.now) }
    {
        self.items.get_mut(at)
    }

    /// The item at a place from 0, if there is one.
    pub fn get(&self, at: usize) -> Option<&T>
        ensures { option_copied result ≡ slice_get self.now at }
    {
        self.items.get(at)
    }
}

impl<T: Drop> Seq<T> {
    /// Puts an item at the end.
    pub fn push(&mut self, item: T) -> Result<(), AllocError>
        ensures ok { OnOk result (self.new ≡ self.old ++ item ∷ []) }
        ensures err { OnErr result (self.new ≡ self.old) }
    {
        self.items.push(item)?;
        Ok(())
    }

    /// Puts an item at the end; where there is no memory, the error has the item.
    pub fn try_push(&mut self, item: T) -> Result<(), AllocFailed<T>>
        ensures ok { OnOk result (self.new ≡ self.old ++ item ∷ []) }
        ensures err { OnErr result (self.new ≡ self.old) }
        ensures returned { IfErr result (λ failed. failed.value ≡ item) }
    {
        self.items.push(item)
    }

    /// Puts an item at a place, before those from there on; where there is no memory, the error has the item.
    pub fn insert(&mut self, at: usize, item: T) -> Result<(), AllocFailed<T>>
        requires { at ≤ length self.old }
        ensures ok { OnOk result (self.new ≡ insert self.old at item) }
        ensures err { OnErr result (self.new ≡ self.old) }
        ensures returned { IfErr result (λ failed. failed.value ≡ item) }
    {
        self.items.insert(at, item)
    }

    /// Takes an item out; those after it move down.
    pub fn remove(&mut self, at: usize) -> T
        requires { at < length self.old }
        ensures was { slice_get self.old at ≡ Some result }
        ensures now { self.new ≡ remove self.old at }
    {
        self.items.remove(at)
    }

    /// Takes the last item out, if there is one.
    pub fn pop(&mut self) -> Option<T>
        ensures was { result ≡ slice_get self.old (length self.old - 1) }
        ensures now { self.new ≡ take (length self.old - 1) self.old }
    {
        self.items.pop()
    }

    /// Makes room for so many more items.
    pub fn reserve(&mut self, more: usize) -> Result<(), AllocError>
        ensures { self.new ≡ self.old }
    {
        self.items.reserve(more)
    }

    /// Puts an item in the place of one, and gives that one.
    pub fn replace(&mut self, at: usize, item: T) -> T
        requires { at < length self.old }
        ensures was { slice_get self.old at ≡ Some result }
        ensures now { self.new ≡ slice_set self.old at item }
    {
        std::mem::replace(&mut self.items[at], item)
    }
}

impl<T: Copy> Seq<T> {
    /// The list of a slice's items.
    pub fn from_slice(alloc: Global, items: &[T]) -> Result<Seq<T>, AllocError>
        ensures { IfOk result (λ list. list ≡ items.now) }
    {
        Ok(Seq {
            items: Vec::from_slice(alloc, items)?,
        })
    }

    /// Puts a slice's items at the end.
    pub fn extend_from_slice(&mut self, more: &[T]) -> Result<(), AllocError>
        ensures ok { OnOk result (self.new ≡ self.old ++ more.now) }
        ensures err { OnErr result (self.new ≡ self.old) }
    {
        self.items.extend_from_slice(more)
    }
}

impl<T: TryClone> TryClone for Seq<T> {
    fn try_clone(&self, alloc: Global) -> Result<Self, AllocError> {
        Ok(Seq {
            items: T::clone_all(self.as_slice(), alloc)?,
        })
    }
}

impl<T: Equal> Equal for Seq<T> {
    fn equal(&self, other: &Self) -> bool {
        T::equal_all(self.as_slice(), other.as_slice())
    }
}
