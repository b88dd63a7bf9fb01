//! What is known of ids: an item for each, in a slot of its own.
//!
//! The slots are a table of ids, which serves every module, whatever its ids are. What fails fails for want of memory alone, and
//! then the slots are no longer of use.

ghost use Rattle.std.specs.Prelude.{◌≡◌, IfOk, OnOk};
ghost use Rattle.std.specs.Option.{option_copied};
ghost use Rattle.ir_types.specs.declared.id.Id.{Id};
ghost use Rattle.ir_types.specs.IdTable.{found};
ghost use Rattle.ir_interp.specs.Slots.{over, with_item};

use ir_types::{Id, IdTable};
use std::alloc::Global;
use vx_list::OutOfMemory;

/// An item for each of some ids.
#[derive(Drop)]
pub(crate) struct Slots<T> {
    items: IdTable<T>,
}

impl<T: Drop> Slots<T> {
    /// No slot.
    pub(crate) fn new(alloc: Global) -> Slots<T>
        ensures { (rest : Id → T) → over result.items rest ≡ rest }
    {
        Slots {
            items: IdTable::new(alloc),
        }
    }

    /// The item of an id, if it has one.
    pub(crate) fn get(&self, id: Id) -> Option<&T>
        ensures { option_copied result ≡ found self.now.items id }
    {
        self.items.get(id)
    }

    /// Gives an id an item, whatever it had.
    pub(crate) fn set(&mut self, id: Id, item: T) -> Result<(), OutOfMemory>
        ensures { OnOk result ((rest : Id → T) → over self.new.items rest ≡ with_item (over self.old.items rest) id item) }
    {
        self.items.set(id, item)?;
        Ok(())
    }

    /// Gives an id an item where it has none.
    pub(crate) fn add(&mut self, id: Id, item: T) -> Result<(), OutOfMemory>
        ensures { OnOk result ((rest : Id → T) → over self.new.items rest ≡ over self.old.items (with_item rest id item)) }
    {
        if self.items.get(id).is_none() {
            self.items.set(id, item)?;
        }
        Ok(())
    }
}
