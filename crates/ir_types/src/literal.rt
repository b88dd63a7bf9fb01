//! Literals: a type and its lanes.
//!
//! A scalar has one lane, a vector as many as its type says. A lane is a number below 2^width or, where it is none, poison.

use crate::{Lits, Ty};
use std::alloc::{AllocError, Global};
use vx_list::{Equal, TryClone};

/// A literal operand (Language Reference, "Constants").
#[derive(Debug, Drop)]
pub struct Literal {
    pub ty: Ty,
    pub lanes: Lits,
}

impl TryClone for Literal {
    fn try_clone(&self, alloc: Global) -> Result<Self, AllocError> {
        Ok(Literal {
            ty: self.ty,
            lanes: self.lanes.try_clone(alloc)?,
        })
    }
}

impl Equal for Literal {
    fn equal(&self, other: &Self) -> bool {
        self.ty.equal(&other.ty) && self.lanes.equal(&other.lanes)
    }
}
