//! Modules: the items of a text in order.
//!
//! `Module::try_clone` fails for want of memory alone; `Module::equal` takes none.

ghost use Rattle.std.specs.Prelude.{◌≡◌, ◌↔◌, IfOk, IsTrue};

use crate::{Bytes, Func, Items, Names, OutOfMemory};
use std::alloc::{AllocError, Global};
use vx_list::{Equal, TryClone};

/// A thing that stands in a module at its top.
#[derive(Debug, Drop)]
pub enum Item {
    /// A line that is kept as it is.
    Kept(Bytes),
    /// A function that is kept as it is, with its line feeds but for the last.
    Opaque(Bytes),
    /// A function of the profile.
    Func(Func),
}

/// A module (Language Reference, "Module Structure").
#[derive(Debug, Drop)]
pub struct Module {
    pub items: Items,
    /// The names of the globals, without their `@`, in order of their lines.
    pub globals: Names,
    /// The first line, from 1, that says that the layout is big-endian.
    pub big_endian_line: Option<u32>,
}

impl Module {
    /// An equal module.
    pub fn try_clone(&self, alloc: Global) -> Result<Module, OutOfMemory>
        ensures { IfOk result (λ copy. copy ≡ self.now) }
    {
        Ok(Module {
            items: self.items.try_clone(alloc)?,
            globals: self.globals.try_clone(alloc)?,
            big_endian_line: self.big_endian_line,
        })
    }

    /// Whether both are the same module, ids and all.
    pub fn equal(&self, other: &Module) -> bool
        ensures { IsTrue result ↔ (self.now ≡ other.now) }
    {
        self.items.equal(&other.items)
            && self.globals.equal(&other.globals)
            && self.big_endian_line.equal(&other.big_endian_line)
    }
}

impl TryClone for Item {
    fn try_clone(&self, alloc: Global) -> Result<Self, AllocError> {
        match self {
            Item::Kept(text) => Ok(Item::Kept(text.try_clone(alloc)?)),
            Item::Opaque(text) => Ok(Item::Opaque(text.try_clone(alloc)?)),
            Item::Func(func) => Ok(Item::Func(func.try_clone(alloc)?)),
        }
    }
}

impl Equal for Item {
    fn equal(&self, other: &Self) -> bool {
        match (self, other) {
            (Item::Kept(text), Item::Kept(other)) => text.equal(other),
            (Item::Opaque(text), Item::Opaque(other)) => text.equal(other),
            (Item::Func(func), Item::Func(other)) => func.equal(other),
            _ => false,
        }
    }
}
