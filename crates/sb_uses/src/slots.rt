//! `Slots`: the use lists of all operand slots of a module's instructions, with what brings them back.
//!
//! `add` brings the slots of an instruction in, `take` takes them out and keeps where each stood, and `replace` sets one operand.
//! `withdraw` undoes `add`, `restore` undoes `take`, and `set_back` undoes `replace`: each gives all lists in their order. Changes are
//! undone in turn, the newest first; `forget` lets go of what was kept. A slot takes constant time. Only `reserve` and `list` want
//! memory: room to keep a slot is made when it comes.

ghost use Rattle.std.specs.Prelude.{◌≡◌, ◌≤◌, ◌<◌, ◌+◌, List, [], length, IsOk, IfOk, OnOk};
ghost use Rattle.ir_types.specs.declared.opd.Opd.{Opd};
ghost use Rattle.ir_types.specs.declared.id.Id.{Id};
ghost use Rattle.sb_uses.specs.Chains.{lists};
ghost use Rattle.sb_uses.specs.Places.{is_some_use};
ghost use Rattle.sb_uses.specs.Stock.{HasSlot, HasSlots, LacksSlot, LacksSlots, stock, spare, added, taken, withdrawn, restored, replaced, set_back, slot_added, slot_taken, slot_withdrawn, slot_restored, CanRestoreSlot, CanRestore, CanSetBack};

use crate::UseLists;
use crate::kept::Kept;
use ir_types::{Id, Opd, OutOfMemory, Uses};
use std::alloc::{AllocError, Global};
use std::marker::Model;

/// The use lists of all values, by the slots of instructions.
#[derive(Drop)]
pub struct Slots {
    lists: UseLists,
    /// What was taken out, the newest last; none for a slot that held no value.
    kept: Vec<Option<Kept>>,
    /// How many slots the instructions hold.
    held: u32,
}

impl Model for Slots {
    ghost use Rattle.std.specs.Prelude.{reverse, vec_capacity};
    ghost use Rattle.sb_uses.specs.contracts.chains.Chains.{the_row as chains_row};
    ghost use Rattle.sb_uses.specs.contracts.kept.Kept.{the_row as kept_row};
    ghost use Rattle.sb_uses.specs.Stock.{Holding, holding_code, IsHolding};

    ghost Value = { Holding };

    ghost coded = { holding_code chains_row.coded kept_row.coded };

    ghost view = { λ s. record { chains = s.lists; kept = reverse s.kept.items; space = vec_capacity s.kept; held = s.held } };

    ghost invariant = { λ s. IsHolding (record { chains = s.lists; kept = reverse s.kept.items; space = vec_capacity s.kept; held = s.held }) };
}

impl Slots {
    /// No instruction holds a slot, which takes no memory.
    pub fn new(alloc: Global) -> Slots
        ensures lists { (x : Id) → lists result.chains x ≡ [] }
        ensures kept { result.kept ≡ [] }
        ensures held { result.held ≡ 0 }
    {
        Slots {
            lists: UseLists::new(alloc),
            kept: Vec::new(alloc),
            held: 0,
        }
    }

    /// Makes room for so many more slots; there are fewer than 2^32.
    pub fn reserve(&mut self, more: u64) -> Result<(), OutOfMemory>
        ensures same { stock self.new ≡ stock self.old }
        ensures held { self.new.held ≡ self.old.held }
        ensures ok { OnOk result (more ≤ spare self.new) }
        ensures had_room { more ≤ spare self.old → IsOk result }
        ensures room { spare self.old ≤ spare self.new }
    {
        if more > (u32::MAX - self.held) as u64 {
            return Err(AllocError);
        }
        self.reserve_kept(more as usize)?;
        self.lists.reserve(more)
    }

    /// Makes room to keep so many more slots.
    fn reserve_kept(&mut self, more: usize) -> Result<(), OutOfMemory>
        requires { more + self.old.held ≤ 4294967295 }
        ensures chains { self.new.chains ≡ self.old.chains }
        ensures kept { self.new.kept ≡ self.old.kept }
        ensures held { self.new.held ≡ self.old.held }
        ensures ok { OnOk result (length self.new.kept + self.new.held + more ≤ self.new.space) }
        ensures had_room { length self.old.kept + self.old.held + more ≤ self.old.space → IsOk result }
        ensures room { self.old.space ≤ self.new.space }
    {
        self.kept.reserve(self.held as usize + more)
    }

    /// Brings the slots of an instruction in, the first slot first; no list has them.
    pub fn add(&mut self, user: Id, opds: &[Opd])
        requires lacks { LacksSlots user 0 opds.now (stock self.old).lists }
        requires room { length opds.now ≤ spare self.old }
        ensures now { stock self.new ≡ added user 0 opds.now (stock self.old) }
        ensures back { withdrawn user 0 opds.now (stock self.new) ≡ stock self.old }
        ensures can { HasSlots user 0 opds.now (stock self.new).lists }
        ensures held { self.new.held ≡ self.old.held + length opds.now }
        ensures room { spare self.old ≤ spare self.new + length opds.now }
    {
        let _ = &self.lists;
        let mut left = opds;
        let mut slot = 0;
        while let [opd, rest @ ..] = left {
            self.add_one(user, slot, opd);
            left = rest;
            slot += 1;
        }
    }

    /// Takes the slots of an instruction out, the first slot first, and keeps them.
    pub fn take(&mut self, user: Id, opds: &[Opd])
        requires has { HasSlots user 0 opds.now (stock self.old).lists }
        requires held { length opds.now ≤ self.old.held }
        ensures now { stock self.new ≡ taken user 0 opds.now (stock self.old) }
        ensures back { restored opds.now (stock self.new) ≡ stock self.old }
        ensures can { CanRestore opds.now (stock self.new) }
        ensures held { self.old.held ≡ self.new.held + length opds.now }
        ensures room { spare self.old ≤ spare self.new }
    {
        let _ = &self.lists;
        let mut left = opds;
        let mut slot = 0;
        while let [opd, rest @ ..] = left {
            self.take_one(user, slot, opd);
            left = rest;
            slot += 1;
        }
    }

    /// Takes the slots of an instruction out for good, which undoes `add`.
    pub fn withdraw(&mut self, user: Id, opds: &[Opd])
        requires has { HasSlots user 0 opds.now (stock self.old).lists }
        requires held { length opds.now ≤ self.old.held }
        ensures now { stock self.new ≡ withdrawn user 0 opds.now (stock self.old) }
        ensures held { self.old.held ≡ self.new.held + length opds.now }
        ensures room { spare self.old ≤ spare self.new }
    {
        let _ = &self.lists;
        let mut left = opds;
        let mut slot = 0;
        while let [opd, rest @ ..] = left {
            self.withdraw_one(user, slot, opd);
            left = rest;
            slot += 1;
        }
    }

    /// Puts the slots that were taken out last back where they stood, one for each operand, which undoes `take`.
    pub fn restore(&mut self, opds: &[Opd])
        requires can { CanRestore opds.now (stock self.old) }
        requires few { self.old.held + length opds.now ≤ 4294967295 }
        ensures now { stock self.new ≡ restored opds.now (stock self.old) }
        ensures held { self.new.held ≡ self.old.held + length opds.now }
        ensures room { spare self.old ≤ spare self.new + length opds.now }
    {
        let mut left = opds;
        while let [_, rest @ ..] = left {
            self.restore_one();
            left = rest;
        }
    }

    /// Sets one operand of an instruction: the slot leaves the list of the old value, and comes to that of the new one.
    pub fn replace(&mut self, user: Id, slot: u32, old: &Opd, new: &Opd)
        requires has { HasSlot user slot old.now (stock self.old).lists }
        requires lacks { LacksSlot user slot new.now (slot_taken user slot old.now (stock self.old)).lists }
        requires held { 0 < self.old.held }
        requires room { 0 < spare self.old }
        ensures now { stock self.new ≡ replaced user slot old.now new.now (stock self.old) }
        ensures back { set_back user slot new.now (stock self.new) ≡ stock self.old }
        ensures can { CanSetBack user slot new.now (stock self.new) }
        ensures held { self.new.held ≡ self.old.held }
        ensures room { spare self.old ≤ spare self.new + 1 }
    {
        let _ = &self.lists;
        self.take_one(user, slot, old);
        self.add_one(user, slot, new);
    }

    /// Sets an operand back to what it was, which undoes `replace`.
    pub fn set_back(&mut self, user: Id, slot: u32, new: &Opd)
        requires can { CanSetBack user slot new.now (stock self.old) }
        requires held { 0 < self.old.held }
        ensures now { stock self.new ≡ set_back user slot new.now (stock self.old) }
        ensures held { self.new.held ≡ self.old.held }
        ensures room { spare self.old ≤ spare self.new + 1 }
    {
        let _ = &self.held;
        self.withdraw_one(user, slot, new);
        self.restore_one();
    }

    /// Lets go of what was kept, so that no change made so far can be undone any more.
    pub fn forget(&mut self)
        ensures lists { (stock self.new).lists ≡ (stock self.old).lists }
        ensures kept { self.new.kept ≡ [] }
        ensures held { self.new.held ≡ self.old.held }
        ensures room { spare self.old ≤ spare self.new }
    {
        self.kept.clear();
    }

    /// Whether a value has a use.
    pub fn is_used(&self, value: Id) -> bool
        ensures { result ≡ is_some_use ((stock self.now).lists value) }
    {
        self.lists.is_used(value)
    }

    /// The uses of a value, newest first.
    pub fn list(&self, value: Id) -> Result<Uses, OutOfMemory>
        ensures { IfOk result (λ uses. uses ≡ (stock self.now).lists value) }
    {
        self.lists.list(value)
    }

    /// Brings one slot in.
    fn add_one(&mut self, user: Id, slot: u32, opd: &Opd)
        requires lacks { LacksSlot user slot opd.now (stock self.old).lists }
        requires room { 0 < spare self.old }
        ensures now { stock self.new ≡ slot_added user slot opd.now (stock self.old) }
        ensures later { (os : List Opd) → LacksSlots user (slot + 1) os (stock self.old).lists → LacksSlots user (slot + 1) os (stock self.new).lists }
        ensures held { self.new.held ≡ self.old.held + 1 }
        ensures room { spare self.old ≤ spare self.new + 1 }
    {
        self.lists.add_slot(user, slot, opd);
        self.held += 1;
    }

    /// Takes one slot out, and keeps it.
    fn take_one(&mut self, user: Id, slot: u32, opd: &Opd)
        requires has { HasSlot user slot opd.now (stock self.old).lists }
        requires held { 0 < self.old.held }
        ensures now { stock self.new ≡ slot_taken user slot opd.now (stock self.old) }
        ensures later { (os : List Opd) → HasSlots user (slot + 1) os (stock self.old).lists → HasSlots user (slot + 1) os (stock self.new).lists }
        ensures held { self.old.held ≡ self.new.held + 1 }
        ensures room { spare self.old ≤ spare self.new }
    {
        let kept = self.lists.take_slot(user, slot, opd);
        if self.kept.push(kept).is_err() {
            unreachable!();
        }
        self.held -= 1;
    }

    /// Takes one slot out for good.
    fn withdraw_one(&mut self, user: Id, slot: u32, opd: &Opd)
        requires has { HasSlot user slot opd.now (stock self.old).lists }
        requires held { 0 < self.old.held }
        ensures now { stock self.new ≡ slot_withdrawn user slot opd.now (stock self.old) }
        ensures later { (os : List Opd) → HasSlots user (slot + 1) os (stock self.old).lists → HasSlots user (slot + 1) os (stock self.new).lists }
        ensures held { self.old.held ≡ self.new.held + 1 }
        ensures room { spare self.old ≤ spare self.new }
    {
        self.lists.take_slot(user, slot, opd);
        self.held -= 1;
    }

    /// Puts the slot that was taken out last back.
    fn restore_one(&mut self)
        requires can { CanRestoreSlot (stock self.old) }
        requires few { self.old.held < 4294967295 }
        ensures now { stock self.new ≡ slot_restored (stock self.old) }
        ensures held { self.new.held ≡ self.old.held + 1 }
        ensures room { spare self.old ≤ spare self.new + 1 }
    {
        let Some(kept) = self.kept.pop() else {
            unreachable!();
        };
        self.lists.put_slot(kept);
        self.held += 1;
    }
}
