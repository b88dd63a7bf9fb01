//! `IdTable`: what stands for an id, found in constant time.
//!
//! Contracts see it through `found`, a map from ids. Ids of region 0 are counted over a module, so those of one function follow one
//! another: they lie in a row by their number, and every other id is looked up by its hash. Which of both has an id is of no
//! concern to a caller. `reserve` makes room in both; an id that is set within the room takes no memory. Nothing else fails.

ghost use Rattle.std.specs.Prelude.{◌≡◌, ℕ, ◌+◌, ◌<◌, length, cond, Some, None, IsOk, IfErr, OnOk, OnErr};
ghost use Rattle.std.specs.Option.{option_copied};
ghost use Rattle.ir_types.specs.Available.{same_id};
ghost use Rattle.ir_types.specs.IdTable.{place, in_row, found, HasRoom};

use crate::Id;
use std::alloc::{AllocError, AllocFailed, Global};
use std::collections::HashMap;

/// An item for each of some ids.
#[derive(Drop)]
pub struct IdTable<T> {
    /// The number of the first id of the row.
    first: u32,
    /// The items of the ids of region 0 from there on.
    row: Vec<Option<T>>,
    /// The items of ids outside the row; what the row has goes before.
    others: HashMap<Id, T>,
}

/// The place of an id in a row, if it can have one.
fn place(first: u32, id: Id) -> Option<usize>
    ensures { result ≡ place first id }
{
    if id.region == 0 && first <= id.k {
        Some((id.k - first) as usize)
    } else {
        None
    }
}

impl<T> IdTable<T> {
    /// No id has an item.
    pub fn new(alloc: Global) -> IdTable<T>
        ensures { (q : Id) → found result q ≡ None }
    {
        IdTable {
            first: 0,
            row: Vec::new(alloc),
            others: HashMap::new(alloc),
        }
    }

    /// The item of an id, if it has one.
    pub fn get(&self, id: Id) -> Option<&T>
        ensures { option_copied result ≡ found self.now id }
    {
        match self.in_row(id) {
            Some(item) => Some(item),
            None => self.others.get(&id),
        }
    }

    /// The item of an id in the row.
    fn in_row(&self, id: Id) -> Option<&T>
        ensures { option_copied result ≡ in_row self.now.first self.now.row.items id }
    {
        let at = place(self.first, id)?;
        match self.row.get(at) {
            Some(Some(item)) => Some(item),
            _ => None,
        }
    }

    /// Makes room for so many more ids.
    pub fn reserve(&mut self, more: usize) -> Result<(), AllocError>
        ensures same { (q : Id) → found self.new q ≡ found self.old q }
        ensures ok { OnOk result (HasRoom self.new more) }
        ensures had_room { HasRoom self.old more → IsOk result }
    {
        self.row.reserve(more)?;
        self.others.reserve(more)
    }
}

impl<T: Drop> IdTable<T> {
    /// Gives an id an item, whatever it had; where there is no memory, the error has the item.
    pub fn set(&mut self, id: Id, item: T) -> Result<(), AllocFailed<T>>
        ensures ok { OnOk result ((q : Id) → found self.new q ≡ cond (same_id id q) (Some item) (found self.old q)) }
        ensures err { OnErr result ((q : Id) → found self.new q ≡ found self.old q) }
        ensures returned { IfErr result (λ failed. failed.value ≡ item) }
        ensures had_room { HasRoom self.old 1 → IsOk result }
        ensures within { (more : ℕ) → HasRoom self.old (more + 1) → HasRoom self.new more }
    {
        self.begin(id);
        match place(self.first, id) {
            Some(at) if at < self.row.len() => {
                self.put_in_row(id, at, item);
                Ok(())
            }
            Some(at) if at == self.row.len() => self.push(id, item),
            _ => self.set_other(id, item),
        }
    }

    /// An empty row begins at an id.
    fn begin(&mut self, id: Id)
        ensures same { (q : Id) → found self.new q ≡ found self.old q }
        ensures room { (more : ℕ) → HasRoom self.old more → HasRoom self.new more }
    {
        if self.row.is_empty() {
            self.first = id.k;
        }
    }

    /// Gives an id of the row an item.
    fn put_in_row(&mut self, id: Id, at: usize, item: T)
        requires place { place self.old.first id ≡ Some at }
        requires there { at < length self.old.row.items }
        ensures now { (q : Id) → found self.new q ≡ cond (same_id id q) (Some item) (found self.old q) }
        ensures room { (more : ℕ) → HasRoom self.old more → HasRoom self.new more }
    {
        self.row[at] = Some(item);
    }

    /// Gives the id after the row's last an item.
    fn push(&mut self, id: Id, item: T) -> Result<(), AllocFailed<T>>
        requires { place self.old.first id ≡ Some (length self.old.row.items) }
        ensures ok { OnOk result ((q : Id) → found self.new q ≡ cond (same_id id q) (Some item) (found self.old q)) }
        ensures err { OnErr result ((q : Id) → found self.new q ≡ found self.old q) }
        ensures returned { IfErr result (λ failed. failed.value ≡ item) }
        ensures had_room { HasRoom self.old 1 → IsOk result }
        ensures within { (more : ℕ) → HasRoom self.old (more + 1) → HasRoom self.new more }
    {
        if self.row.reserve(1).is_err() {
            return Err(AllocFailed { value: item });
        }
        if self.row.push(Some(item)).is_err() {
            unreachable!();
        }
        Ok(())
    }

    /// Gives an id outside the row an item.
    fn set_other(&mut self, id: Id, item: T) -> Result<(), AllocFailed<T>>
        requires { in_row self.old.first self.old.row.items id ≡ None }
        ensures ok { OnOk result ((q : Id) → found self.new q ≡ cond (same_id id q) (Some item) (found self.old q)) }
        ensures err { OnErr result ((q : Id) → found self.new q ≡ found self.old q) }
        ensures returned { IfErr result (λ failed. failed.value ≡ item) }
        ensures had_room { HasRoom self.old 1 → IsOk result }
        ensures within { (more : ℕ) → HasRoom self.old (more + 1) → HasRoom self.new more }
    {
        match self.others.insert(id, item) {
            Ok(_) => Ok(()),
            Err(failed) => {
                let (_, item) = failed.value;
                Err(AllocFailed { value: item })
            }
        }
    }
}
