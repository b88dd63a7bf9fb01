//! `UseLists`: the uses of each value, newest first.
//!
//! Contracts see a function from ids to lists (`lists`), and the room. `add`, `take` and `put_back` take a time that does not grow with
//! the lists; `list` gives one. Only want of memory is a failure, and it changes no list. The slots are linked as the lists say, of
//! every value at all times. What is taken out keeps its slot, so that `put_back` needs no memory; the slot serves when the use is
//! added again.

ghost use Rattle.std.specs.Prelude.{◌≡◌, ◌≤◌, ◌<◌, ◌+◌, true, false, [], IfOk, IsOk, OnOk, OnErr};
ghost use Rattle.ir_types.specs.declared.id.Id.{Id};
ghost use Rattle.vx_view.specs.Uses.{added, taken};
ghost use Rattle.vx_view.specs.UsesAfter.{with_list};
ghost use Rattle.sb_uses.specs.Chains.{lists, room};
ghost use Rattle.sb_uses.specs.Places.{has, put, is_some_use};
ghost use Rattle.sb_uses.specs.Spots.{Keeps, CanPutBack};
ghost use Rattle.sb_uses.specs.Stock.{stood_after};

use crate::chains::Chains;
use ir_types::{Id, OutOfMemory, Use, Uses};
use std::alloc::Global;
use std::collections::HashMap;
use std::marker::Model;

/// The uses of all values.
#[derive(Drop)]
pub struct UseLists {
    chains: Chains,
    alloc: Global,
}

impl Model for UseLists {
    ghost use Rattle.ir_types.specs.declared.id.Id.{Id};
    ghost use Rattle.sb_uses.specs.declared.chains.Chains.{Chains};
    ghost use Rattle.sb_uses.specs.contracts.chains.Chains.{the_row};
    ghost use Rattle.sb_uses.specs.Whole.{IsWhole};

    ghost Value = { Chains };

    ghost coded = { the_row.coded };

    ghost view = { λ u. u.chains };

    ghost invariant = { λ u. (v : Id) → IsWhole u.chains v };
}

/// The place of a use that was taken out of its list.
#[derive(Clone, Copy, Debug)]
pub struct Spot {
    /// The use after which it stood; none where it was the newest.
    newer: Option<Use>,
}

impl UseLists {
    /// No value has a use, which takes no memory.
    pub fn new(alloc: Global) -> UseLists
        ensures { (x : Id) → lists result x ≡ [] }
    {
        UseLists {
            chains: Chains {
                heads: HashMap::new(alloc),
                slots: HashMap::new(alloc),
            },
            alloc,
        }
    }

    /// Makes room for so many more uses.
    pub fn reserve(&mut self, more: u64) -> Result<(), OutOfMemory>
        ensures same { (x : Id) → lists self.new x ≡ lists self.old x }
        ensures ok { OnOk result (more ≤ room self.new) }
        ensures had_room { more ≤ room self.old → IsOk result }
        ensures room { room self.old ≤ room self.new }
        ensures keeps { Keeps self.old self.new }
    {
        self.chains.reserve(more as usize)
    }

    /// Puts a use at the head of a value's list, which lacks it.
    pub fn add(&mut self, value: Id, used: Use) -> Result<(), OutOfMemory>
        requires { has used (lists self.old value) ≡ false }
        ensures ok { OnOk result ((x : Id) → lists self.new x ≡ with_list value (added used (lists self.old value)) (lists self.old) x) }
        ensures err { OnErr result ((x : Id) → lists self.new x ≡ lists self.old x) }
        ensures had_room { 0 < room self.old → IsOk result }
        ensures within { room self.old ≤ room self.new + 1 }
        ensures keeps { Keeps self.old self.new }
    {
        self.chains.enter(value, used)?;
        self.chains.link(value, None, used);
        Ok(())
    }

    /// Takes a use out of a value's list, which has it; at its spot it can be put back, and then all lists are as they were.
    pub fn take(&mut self, value: Id, used: Use) -> Spot
        requires { has used (lists self.old value) ≡ true }
        ensures now { (x : Id) → lists self.new x ≡ with_list value (taken used (lists self.old value)) (lists self.old) x }
        ensures back { (x : Id) → with_list value (put result.newer used (lists self.new value)) (lists self.new) x ≡ lists self.old x }
        ensures spot { result.newer ≡ stood_after used (lists self.old value) }
        ensures can { CanPutBack self.new value used result }
        ensures room { room self.new ≡ room self.old }
        ensures keeps { Keeps self.old self.new }
    {
        let newer = self.chains.newer(value, used);
        self.chains.unlink(value, used);
        Spot { newer }
    }

    /// Puts a use that was taken out back to its spot.
    pub fn put_back(&mut self, value: Id, used: Use, spot: Spot)
        requires { CanPutBack self.old value used spot }
        ensures now { (x : Id) → lists self.new x ≡ with_list value (put spot.newer used (lists self.old value)) (lists self.old) x }
        ensures room { room self.new ≡ room self.old }
        ensures keeps { Keeps self.old self.new }
    {
        self.chains.link(value, spot.newer, used);
    }

    /// Whether a value has a use.
    pub fn is_used(&self, value: Id) -> bool
        ensures { result ≡ is_some_use (lists self.now value) }
    {
        let _ = &self.alloc;
        self.chains.older(value, None).is_some()
    }

    /// The uses of a value, newest first.
    pub fn list(&self, value: Id) -> Result<Uses, OutOfMemory>
        ensures { IfOk result (λ uses. uses ≡ lists self.now value) }
    {
        self.chains.list(self.alloc, value)
    }
}
