//! `Names`: a set of names in the order in which they came.
//!
//! Its value is the list of them, each once. A look-up is one in a hash set. Want of memory is the only failure.

ghost use Rattle.std.specs.Prelude.{◌≡◌, [], OnOk};
ghost use Rattle.ir_read.specs.Outlook as outlook;

use indexmap::IndexSet;
use std::alloc::{AllocError, Global};
use std::marker::Model;

/// A set of names.
#[derive(Drop)]
pub(crate) struct Names {
    set: IndexSet<Vec<u8>>,
}

impl Model for Names {
    ghost use Rattle.std.specs.Prelude.{List, ℕ, map};

    ghost Value = { List (List ℕ) };

    ghost view = { λ s. map (λ k. k.items) s.set.keys };
}

impl Names {
    /// No names.
    pub(crate) fn new(alloc: Global) -> Names
        ensures { result ≡ [] }
    {
        Names {
            set: IndexSet::new(alloc),
        }
    }

    /// Whether a name is among them.
    pub(crate) fn contains(&self, name: &[u8]) -> bool
        ensures { result ≡ outlook.has self.now name.now }
    {
        self.set.contains(name)
    }

    /// One more name, if it is new.
    pub(crate) fn add(&mut self, alloc: Global, name: &[u8]) -> Result<(), AllocError>
        ensures { OnOk result (self.new ≡ outlook.with_name self.old name.now) }
    {
        let key = Vec::from_slice(alloc, name)?;
        self.set.insert(key)?;
        Ok(())
    }
}
