//! `Node`: a bundle of lanes in a region's tree, and how it is had.
//!
//! Nothing here fails but for want of memory. What a region's tree is stands in `specs/Tree.antt`.

use crate::Cause;
use ir_types::{Id, Numbers, Opds};
use std::alloc::{AllocError, Global};
use vx_list::{Equal, Seq, TryClone};

/// How a bundle of lanes is had.
#[derive(Clone, Copy, Debug, PartialEq, Eq)]
pub enum How {
    /// By one vector instruction.
    Widen,
    /// By the widened node of this number.
    Reuse(u32),
    /// By the vector of this id, whose elements the lanes are, in order.
    Ident(Id),
    /// Lane by lane, for this cause.
    Pack(Cause),
}

/// A bundle of lanes.
#[derive(Debug, Drop)]
pub struct Node {
    pub lanes: Opds,
    pub how: How,
    /// The numbers of the nodes of its slots, from left to right; none where it is not widened.
    pub slots: Numbers,
}

/// The nodes of a region, numbered from 0 as they are visited; the first has the stores.
pub type Tree = Seq<Node>;

impl TryClone for How {
    fn try_clone(&self, _alloc: Global) -> Result<Self, AllocError> {
        Ok(*self)
    }
}

impl Equal for How {
    fn equal(&self, other: &Self) -> bool {
        match (self, other) {
            (How::Widen, How::Widen) => true,
            (How::Reuse(number), How::Reuse(n)) => number == n,
            (How::Ident(id), How::Ident(other)) => id.equal(other),
            (How::Pack(cause), How::Pack(other)) => cause.equal(other),
            _ => false,
        }
    }
}

impl TryClone for Node {
    fn try_clone(&self, alloc: Global) -> Result<Self, AllocError> {
        Ok(Node {
            lanes: self.lanes.try_clone(alloc)?,
            how: self.how,
            slots: self.slots.try_clone(alloc)?,
        })
    }
}

impl Equal for Node {
    fn equal(&self, other: &Self) -> bool {
        self.lanes.equal(&other.lanes)
            && self.how.equal(&other.how)
            && self.slots.equal(&other.slots)
    }
}
