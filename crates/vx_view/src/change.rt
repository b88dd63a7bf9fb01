//! Changes of a module.
//!
//! Nothing here fails but for want of memory. Where a change may be made stands in `specs/Changes.antt`.

use ir_types::{Id, Inst, Opd};
use std::alloc::{AllocError, Global};
use vx_list::{Equal, Seq, TryClone};

/// One change of a module.
#[derive(Debug, Drop)]
pub enum Change {
    /// A new instruction, just before one that is there.
    Insert { before: Id, inst: Inst },
    /// An instruction goes.
    Remove { id: Id },
    /// An instruction goes to just before another of its block.
    Move { id: Id, before: Id },
    /// An instruction in the place of the one with its id.
    Replace { inst: Inst },
    /// Another operand in a slot.
    SetOperand { id: Id, slot: u32, to: Opd },
}

/// A list of changes, the first to be made first.
pub type Changes = Seq<Change>;

impl TryClone for Change {
    fn try_clone(&self, alloc: Global) -> Result<Self, AllocError> {
        match self {
            Change::Insert { before, inst } => Ok(Change::Insert {
                before: *before,
                inst: inst.try_clone(alloc)?,
            }),
            Change::Remove { id } => Ok(Change::Remove { id: *id }),
            Change::Move { id, before } => Ok(Change::Move {
                id: *id,
                before: *before,
            }),
            Change::Replace { inst } => Ok(Change::Replace {
                inst: inst.try_clone(alloc)?,
            }),
            Change::SetOperand { id, slot, to } => Ok(Change::SetOperand {
                id: *id,
                slot: *slot,
                to: to.try_clone(alloc)?,
            }),
        }
    }
}

impl Equal for Change {
    fn equal(&self, other: &Self) -> bool {
        match (self, other) {
            (Change::Insert { before, inst }, Change::Insert { before: b, inst: i }) =>
                before.equal(b) && inst.equal(i),
            (Change::Remove { id }, Change::Remove { id: other }) => id.equal(other),
            (Change::Move { id, before }, Change::Move { id: i, before: b }) => id.equal(i)
                && before.equal(b),
            (Change::Replace { inst }, Change::Replace { inst: other }) => inst.equal(other),
            (
                Change::SetOperand { id, slot, to },
                Change::SetOperand {
                    id: i,
                    slot: s,
                    to: t,
                },
            ) => id.equal(i) && slot.equal(s) && to.equal(t),
            _ => false,
        }
    }
}
