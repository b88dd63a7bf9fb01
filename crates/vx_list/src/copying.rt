//! `TryClone`: a copy of a value, which is the same value.
//!
//! Failure is want of memory alone. The standard `Clone` does not say that a copy equals what was copied; this does. A list is
//! copied by `clone_all` of its items' type: one item after another, or in one piece where items are `Copy`.

ghost use Rattle.std.specs.Prelude.{◌≡◌, IfOk};

use std::alloc::{AllocError, Global};

/// A type whose values can be copied where there is memory.
pub trait TryClone: Drop {
    /// The same value once more.
    fn try_clone(&self, alloc: Global) -> Result<Self, AllocError>
        ensures { IfOk result (λ copy. copy ≡ self.now) };

    /// The same values once more, in one allocation.
    fn clone_all(items: &[Self], alloc: Global) -> Result<Vec<Self>, AllocError>
        ensures { IfOk result (λ copy. copy.items ≡ items.now) }
    {
        let mut copy = Vec::with_capacity(alloc, items.len())?;
        for item in items {
            copy.push(item.try_clone(alloc)?)?;
        }
        Ok(copy)
    }
}

impl TryClone for bool {
    fn try_clone(&self, _alloc: Global) -> Result<Self, AllocError> {
        Ok(*self)
    }
}

impl TryClone for u8 {
    fn try_clone(&self, _alloc: Global) -> Result<Self, AllocError> {
        Ok(*self)
    }

    fn clone_all(items: &[u8], alloc: Global) -> Result<Vec<u8>, AllocError> {
        Vec::from_slice(alloc, items)
    }
}

impl TryClone for u32 {
    fn try_clone(&self, _alloc: Global) -> Result<Self, AllocError> {
        Ok(*self)
    }

    fn clone_all(items: &[u32], alloc: Global) -> Result<Vec<u32>, AllocError> {
        Vec::from_slice(alloc, items)
    }
}

impl TryClone for u64 {
    fn try_clone(&self, _alloc: Global) -> Result<Self, AllocError> {
        Ok(*self)
    }

    fn clone_all(items: &[u64], alloc: Global) -> Result<Vec<u64>, AllocError> {
        Vec::from_slice(alloc, items)
    }
}

impl<T: TryClone> TryClone for Option<T> {
    fn try_clone(&self, alloc: Global) -> Result<Self, AllocError> {
        match self {
            Some(value) => Ok(Some(value.try_clone(alloc)?)),
            None => Ok(None),
        }
    }
}
