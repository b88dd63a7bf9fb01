//! Heads and slots made where there are none.
//!
//! `enter` is the entry point: after it, a value has a head and a use a slot, and each names what it named. A new head stands before
//! no use, and a new slot has no neighbours. Want of memory is the only failure, and then a head may be there that was not; it changes
//! no list.

ghost use Rattle.std.specs.Prelude.{◌≡◌, ◌≤◌, ◌<◌, ◌+◌, true, None, Some, IsOk, OnOk};
ghost use Rattle.std.specs.HashMap.{get, spare};
ghost use Rattle.ir_types.specs.declared.id.Id.{Id};
ghost use Rattle.ir_types.specs.declared.id.Use.{Use};
ghost use Rattle.ir_types.specs.Available.{same_id};
ghost use Rattle.sb_uses.specs.declared.chains.Held.{Held};
ghost use Rattle.sb_uses.specs.Chains.{same_held, known, there, newest_of, older_of, newer_of, room};
ghost use Rattle.sb_uses.specs.Entering.{IsEntered};

use crate::chains::{Chains, Held, Links, slot_of};
use ir_types::{Id, OutOfMemory, Use};

impl Chains {
    /// Makes a head for a value and a slot for a use, where there is none.
    pub(crate) fn enter(&mut self, value: Id, used: Use) -> Result<(), OutOfMemory>
        ensures entered { IsEntered self.old self.new }
        ensures head { OnOk result (known self.new value None ≡ true) }
        ensures slot { OnOk result (known self.new value (Some used) ≡ true) }
        ensures had_room { 0 < room self.old → IsOk result }
        ensures within { room self.old ≤ room self.new + 1 }
    {
        self.enter_head(value)?;
        self.enter_slot(slot_of(value, used))
    }

    /// Makes room for so many more heads and slots.
    pub(crate) fn reserve(&mut self, more: usize) -> Result<(), OutOfMemory>
        ensures entered { IsEntered self.old self.new }
        ensures ok { OnOk result (more ≤ room self.new) }
        ensures had_room { more ≤ room self.old → IsOk result }
        ensures room { room self.old ≤ room self.new }
    {
        self.heads.reserve(more)?;
        self.slots.reserve(more)
    }

    /// Makes a head before no use, where there is none.
    fn enter_head(&mut self, value: Id) -> Result<(), OutOfMemory>
        ensures same { (q : Id) → newest_of (get same_id self.new.heads q) ≡ newest_of (get same_id self.old.heads q) }
        ensures keeps { (q : Id) → there (get same_id self.old.heads q) ≡ true → there (get same_id self.new.heads q) ≡ true }
        ensures ok { OnOk result (there (get same_id self.new.heads value) ≡ true) }
        ensures slots { self.new.slots ≡ self.old.slots }
        ensures had_room { 0 < spare self.old.heads → IsOk result }
        ensures within { spare self.old.heads ≤ spare self.new.heads + 1 }
    {
        if self.heads.get(&value).is_none() {
            self.heads.insert(value, None)?;
        }
        Ok(())
    }

    /// Makes a slot without neighbours, where there is none.
    fn enter_slot(&mut self, slot: Held) -> Result<(), OutOfMemory>
        ensures older { (q : Held) → older_of (get same_held self.new.slots q) ≡ older_of (get same_held self.old.slots q) }
        ensures newer { (q : Held) → newer_of (get same_held self.new.slots q) ≡ newer_of (get same_held self.old.slots q) }
        ensures keeps { (q : Held) → there (get same_held self.old.slots q) ≡ true → there (get same_held self.new.slots q) ≡ true }
        ensures ok { OnOk result (there (get same_held self.new.slots slot) ≡ true) }
        ensures heads { self.new.heads ≡ self.old.heads }
        ensures had_room { 0 < spare self.old.slots → IsOk result }
        ensures within { spare self.old.slots ≤ spare self.new.slots + 1 }
    {
        if self.slots.get(&slot).is_none() {
            self.slots.insert(
                slot,
                Links {
                    newer: None,
                    older: None,
                },
            )?;
        }
        Ok(())
    }
}
