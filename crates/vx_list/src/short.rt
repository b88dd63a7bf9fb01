//! `Short`: a list that keeps up to `N` items inline, and more in an allocation.
//!
//! Contracts see it as the list of its items, as a `Seq`, and it has the calls of a `Seq`, so that the one can take the place of
//! the other. An item that is inline costs no allocation, so an instruction of few operands is one piece of memory. Unused places
//! hold the default of the item's type.

ghost use Rattle.std.specs.Prelude.{◌≡◌, ◌==◌, ◌↔◌, ◌-◌, ◌<◌, ◌≤◌, ◌∷◌, ◌++◌, [], length, take, insert, remove, IfOk, IfErr, OnOk, OnErr, IfSome, IsSome, IsOk, slice_get, slice_index_or, slice_set};
ghost use Rattle.std.specs.Borrow.{sem};
ghost use Rattle.std.specs.Option.{option_copied};

use crate::{Equal, TryClone};
use smallvec::SmallVec;
use std::alloc::{AllocError, AllocFailed, Global};
use std::marker::Model;

/// A list of mostly at most `N` items.
#[derive(Debug, Drop)]
pub struct Short<T, const N: usize> {
    items: SmallVec<T, N>,
}

impl<T, const N: usize> Model for Short<T, N> {
    ghost use Rattle.std.specs.Prelude.{List};
    ghost use Rattle.std.specs.Coded.{coded_list};

    ghost Value = { List T };

    ghost coded = { coded_list T.code };

    ghost view = { λ s. s.items.items };
}

impl<T, const N: usize> Short<T, N> {
    ghost use Rattle.vx_list.specs.Lends.{lends_short_item};

    /// The items in order.
    pub fn as_slice(&self) -> &[T]
        ensures { result.now ≡ self.now }
    {
        self.items.as_slice()
    }

    /// The number of items.
    pub fn len(&self) -> usize
        ensures { result ≡ length self.now }
    {
        self.items.len()
    }

    /// Whether there is no item.
    pub fn is_empty(&self) -> bool
        ensures { result ≡ (length self.now == 0) }
    {
        self.items.is_empty()
    }

    /// The item at a place, to be written: what is written changes that place alone.
    pub fn get_mut(&mut self, at: usize) -> Option<&mut T>
        ensures* writes { sem 𝓛 (lends_short_item T.row N.row self.entry at result) }
        ensures there { IsSome result ↔ (at < length self.old) }
        ensures item { IfSome result (λ item. item.now ≡ slice_index_or self.old at item.now) }
    {
        self.items.get_mut(at)
    }

    /// The item at a place from 0, if there is one.
    pub fn get(&self, at: usize) -> Option<&T>
        ensures { option_copied result ≡ slice_get self.now at }
    {
        self.items.as_slice().get(at)
    }
}

impl<T: Default + Drop, const N: usize> Short<T, N> {
    /// The list of no items, which takes no memory.
    pub fn new(alloc: Global) -> Short<T, N>
        ensures { result ≡ [] }
    {
        Short {
            items: SmallVec::new(alloc),
        }
    }

    /// The list of no items, with room for so many.
    pub fn with_capacity(alloc: Global, room: usize) -> Result<Short<T, N>, AllocError>
        ensures { IfOk result (λ list. list ≡ []) }
    {
        Ok(Short {
            items: SmallVec::with_capacity(alloc, room)?,
        })
    }

    /// The list of a vector's items.
    pub fn from_vec(items: Vec<T>) -> Short<T, N>
        ensures { result ≡ items.items }
    {
        Short {
            items: SmallVec::from_vec(items),
        }
    }

    /// The items as a vector; where they are inline, it takes memory.
    pub fn into_vec(self) -> Result<Vec<T>, AllocError>
        ensures { IfOk result (λ items. items.items ≡ self) }
    {
        let Short { items } = self;
        Ok(items.into_vec()?)
    }

    /// Puts an item at the end.
    pub fn push(&mut self, item: T) -> Result<(), AllocError>
        ensures ok { OnOk result (self.new ≡ self.old ++ item ∷ []) }
        ensures err { OnErr result (self.new ≡ self.old) }
    {
        self.items.push(item)?;
        Ok(())
    }

    /// Puts an item at the end; where there is no memory, the error has the item.
    pub fn try_push(&mut self, item: T) -> Result<(), AllocFailed<T>>
        ensures ok { OnOk result (self.new ≡ self.old ++ item ∷ []) }
        ensures err { OnErr result (self.new ≡ self.old) }
        ensures returned { IfErr result (λ failed. failed.value ≡ item) }
    {
        self.items.push(item)
    }

    /// Puts an item at a place, before those from there on; where there is no memory, the error has the item.
    pub fn insert(&mut self, at: usize, item: T) -> Result<(), AllocFailed<T>>
        requires { at ≤ length self.old }
        ensures ok { OnOk result (self.new ≡ insert self.old at item) }
        ensures err { OnErr result (self.new ≡ self.old) }
        ensures returned { IfErr result (λ failed. failed.value ≡ item) }
    {
        self.items.insert(at, item)
    }

    /// Takes an item out; those after it move down.
    pub fn remove(&mut self, at: usize) -> T
        requires { at < length self.old }
        ensures was { slice_get self.old at ≡ Some result }
        ensures now { self.new ≡ remove self.old at }
    {
        self.items.remove(at)
    }

    /// Takes the last item out, if there is one.
    pub fn pop(&mut self) -> Option<T>
        ensures was { result ≡ slice_get self.old (length self.old - 1) }
        ensures now { self.new ≡ take (length self.old - 1) self.old }
    {
        self.items.pop()
    }

    /// Makes room for so many more items.
    pub fn reserve(&mut self, more: usize) -> Result<(), AllocError>
        ensures { self.new ≡ self.old }
    {
        self.items.reserve(more)
    }

    /// Puts an item in the place of one, and gives that one.
    pub fn replace(&mut self, at: usize, item: T) -> T
        requires { at < length self.old }
        ensures was { slice_get self.old at ≡ Some result }
        ensures now { self.new ≡ slice_set self.old at item }
    {
        std::mem::replace(&mut self.items[at], item)
    }
}

impl<T: Default + Copy, const N: usize> Short<T, N> {
    /// The list of a slice's items; where they fit inline, it takes no memory.
    pub fn from_slice(alloc: Global, items: &[T]) -> Result<Short<T, N>, AllocError>
        ensures ok { IfOk result (λ list. list ≡ items.now) }
        ensures inline { length items.now ≤ N → IsOk result }
    {
        let items = SmallVec::from_slice(alloc, items)?;
        Ok(Short { items })
    }

    /// Puts a slice's items at the end.
    pub fn extend_from_slice(&mut self, more: &[T]) -> Result<(), AllocError>
        ensures ok { OnOk result (self.new ≡ self.old ++ more.now) }
        ensures err { OnErr result (self.new ≡ self.old) }
    {
        self.items.extend_from_slice(more)
    }
}

/// A copy that lies inline is made item by item, without memory of its own; a longer one as a vector.
impl<T: TryClone + Default, const N: usize> TryClone for Short<T, N> {
    fn try_clone(&self, alloc: Global) -> Result<Self, AllocError> {
        if self.items.len() > N {
            return Ok(Short::from_vec(T::clone_all(self.as_slice(), alloc)?));
        }
        let mut copy = Short::new(alloc);
        for item in self.items.as_slice() {
            copy.push(item.try_clone(alloc)?)?;
        }
        Ok(copy)
    }
}

impl<T: Equal, const N: usize> Equal for Short<T, N> {
    fn equal(&self, other: &Self) -> bool {
        T::equal_all(self.as_slice(), other.as_slice())
    }
}
