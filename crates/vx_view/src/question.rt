//! Questions about a module.
//!
//! Nothing here fails.

use ir_types::{Id, Place};
use std::alloc::{AllocError, Global};
use vx_list::{Equal, TryClone};

/// What may be asked of a module.
#[derive(Clone, Copy, Debug, PartialEq, Eq)]
pub enum Question {
    /// The parameter or instruction of an id.
    Inst(Id),
    /// The instruction after one in its block.
    Next(Id),
    /// The instruction before one in its block.
    Prev(Id),
    /// The slots that hold a value, in order of the user's id and of the slot.
    Users(Id),
    /// The first instruction of a block.
    First(Place),
}

impl TryClone for Question {
    fn try_clone(&self, _alloc: Global) -> Result<Self, AllocError> {
        Ok(*self)
    }
}

impl Equal for Question {
    fn equal(&self, other: &Self) -> bool {
        match (self, other) {
            (Question::Inst(id), Question::Inst(other)) => id.equal(other),
            (Question::Next(id), Question::Next(other)) => id.equal(other),
            (Question::Prev(id), Question::Prev(other)) => id.equal(other),
            (Question::Users(id), Question::Users(other)) => id.equal(other),
            (Question::First(place), Question::First(other)) => place.equal(other),
            _ => false,
        }
    }
}
