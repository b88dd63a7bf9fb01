//! `Seen`: the numbers of the cases of a `switch` so far.
//!
//! Its value is the list of them, each once. A look-up is one in a hash set. Want of memory is the only failure.

ghost use Rattle.std.specs.Prelude.{◌≡◌, [], OnOk, nat_eq};
ghost use Rattle.std.specs.List.{list_any};
ghost use Rattle.ir_types_check.specs.Typed as typed;

use indexmap::IndexSet;
use std::alloc::{AllocError, Global};
use std::marker::Model;

/// Numbers, each once.
#[derive(Drop)]
pub(crate) struct Seen {
    set: IndexSet<u64>,
}

impl Model for Seen {
    ghost use Rattle.std.specs.Prelude.{List, ℕ};

    ghost Value = { List ℕ };

    ghost view = { λ s. s.set.keys };
}

impl Seen {
    /// No numbers.
    pub(crate) fn new(alloc: Global) -> Seen
        ensures { result ≡ [] }
    {
        Seen {
            set: IndexSet::new(alloc),
        }
    }

    /// Whether a number is among them.
    pub(crate) fn contains(&self, number: u64) -> bool
        ensures { result ≡ list_any (nat_eq number) self.now }
    {
        self.set.contains(&number)
    }

    /// One more number, if it is new.
    pub(crate) fn add(&mut self, number: u64) -> Result<(), AllocError>
        ensures { OnOk result (self.new ≡ typed.with_number self.old number) }
    {
        self.set.insert(number)?;
        Ok(())
    }
}
