//! `Boxed`: one value in an allocation of its own.
//!
//! Contracts see it as the value, so that a large part of an enum can stand after a pointer without a change in what is said of it.
//! Making one takes memory; nothing else here fails but copying.

ghost use Rattle.std.specs.Prelude.{◌≡◌, IfOk};

use crate::{Equal, TryClone};
use std::alloc::{AllocError, Global};
use std::marker::Model;

/// A value in an allocation of its own.
#[derive(Debug, Drop)]
pub struct Boxed<T> {
    inner: Box<T>,
}

impl<T> Model for Boxed<T> {
    ghost Value = { T };

    ghost coded = { T.code };

    ghost view = { λ b. b.inner.value };
}

impl<T> Boxed<T> {
    /// The value, to be read.
    pub fn get(&self) -> &T
        ensures { result.now ≡ self.now }
    {
        &self.inner
    }

    /// The value, out of its allocation.
    pub fn into_inner(self) -> T
        ensures { result ≡ self }
    {
        let Boxed { inner } = self;
        Box::into_inner(inner)
    }
}

impl<T: Drop> Boxed<T> {
    /// The value, in an allocation.
    pub fn new(alloc: Global, value: T) -> Result<Boxed<T>, AllocError>
        ensures { IfOk result (λ boxed. boxed ≡ value) }
    {
        Ok(Boxed {
            inner: Box::new(alloc, value)?,
        })
    }
}

impl<T: TryClone> TryClone for Boxed<T> {
    fn try_clone(&self, alloc: Global) -> Result<Self, AllocError> {
        Boxed::new(alloc, self.get().try_clone(alloc)?)
    }
}

impl<T: Equal> Equal for Boxed<T> {
    fn equal(&self, other: &Self) -> bool {
        self.get().equal(other.get())
    }
}
