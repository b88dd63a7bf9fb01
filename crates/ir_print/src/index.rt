//! `Index`: where the value of each id stands among the locals of a function.
//!
//! Ids of one region with numbers close to each other, as those of a module that was read, have their places in a row; the others
//! go to a hash map. Want of memory is the only failure.

ghost use Rattle.std.specs.Prelude.{◌≡◌, ℕ, ◌<◌, cond, get_or, length, None, Some, IfSome, IfOk, OnOk};
ghost use Rattle.ir_types.specs.declared.id.Id.{Id as AnId};
ghost use Rattle.ir_print.specs.Index.{IsIndex, slot_of, place_in};
ghost use Rattle.ir_print.specs.Names.{same_id};

use crate::names::Local;
use ir_types::Id;
use std::alloc::{AllocError, Global};
use std::collections::HashMap;

/// The place of the value of each id.
#[derive(Drop)]
pub struct Index {
    /// The region of the ids in the row.
    pub(crate) region: u32,
    /// The number of the first of them.
    pub(crate) first: u32,
    /// For each number from the first on its place, if it has one.
    pub(crate) row: Vec<Option<usize>>,
    /// The places of the other ids.
    pub(crate) others: HashMap<Id, usize>,
}

/// How long a row may be for so many locals.
fn longest_row(locals: usize) -> usize {
    locals.saturating_mul(4).saturating_add(64)
}

/// How long a row is for these locals: up to the number of the last, if that is not too far.
fn row_len(locals: &[Local]) -> usize {
    let ([first, ..], [.., last]) = (locals, locals) else {
        return 0;
    };
    let len = (last.id.k.saturating_sub(first.id.k) as usize).saturating_add(1);
    if len > longest_row(locals.len()) {
        return 0;
    }
    len
}

/// A row of no places.
#[tactic(auto, using(crate::proofs::Rows::none_more))]
fn empty_row(alloc: Global, len: usize) -> Result<Vec<Option<usize>>, AllocError>
    ensures { IfOk result (λ row. (slot : ℕ) → get_or row.items slot None ≡ None) }
{
    let mut row = Vec::with_capacity(alloc, len)?;
    for _place in 0..len {
        row.push(None)?;
    }
    Ok(row)
}

impl Index {
    /// An index with room for these locals, in which none has a place yet.
    #[tactic(auto, using(crate::proofs::Rows::no_place))]
    fn room(alloc: Global, locals: &[Local]) -> Result<Index, AllocError>
        ensures { IfOk result (λ index. (id : AnId) → place_in index id ≡ None) }
    {
        let (region, first) = match locals {
            [] => (0, 0),
            [local, ..] => (local.id.region, local.id.k),
        };
        Ok(Index {
            region,
            first,
            row: empty_row(alloc, row_len(locals))?,
            others: HashMap::new(alloc),
        })
    }

    /// Where an id stands in the row.
    fn slot(&self, id: Id) -> Option<usize>
        ensures slot { result ≡ slot_of self.now id }
        ensures within { IfSome result (λ slot. slot < length self.now.row.items) }
    {
        if id.region != self.region {
            return None;
        }
        if id.k < self.first {
            return None;
        }
        let slot = (id.k - self.first) as usize;
        if slot < self.row.len() {
            Some(slot)
        } else {
            None
        }
    }

    /// The place of an id.
    pub(crate) fn get(&self, id: Id) -> Option<usize>
        ensures { result ≡ place_in self.now id }
    {
        match self.slot(id) {
            Some(slot) => self.row[slot],
            None => self.others.get(&id).copied(),
        }
    }

    /// Gives an id a place.
    pub(crate) fn put(&mut self, id: Id, place: usize) -> Result<(), AllocError>
        ensures { OnOk result ((other : AnId) → place_in self.new other ≡ cond (same_id id other) (Some place) (place_in self.old other)) }
    {
        match self.slot(id) {
            Some(slot) => {
                self.row[slot] = Some(place);
                Ok(())
            }
            None => {
                self.others.insert(id, place)?;
                Ok(())
            }
        }
    }
}

/// The place of each id's value.
pub(crate) fn index_of(alloc: Global, locals: &[Local]) -> Result<Index, AllocError>
    ensures { IfOk result (λ index. IsIndex index locals.now) }
{
    let mut index = Index::room(alloc, locals)?;
    for (at, local) in locals.iter().enumerate() {
        index.put(local.id, at)?;
    }
    Ok(index)
}
