//! Instructions.
//!
//! Nothing here fails but for want of memory.

use crate::{Bytes, Id, Op, Opds, Ty};
use std::alloc::{AllocError, Global};
use vx_list::{Equal, TryClone};

/// An instruction of a function of the profile.
#[derive(Debug, Drop)]
pub struct Inst {
    pub id: Id,
    /// The written name of the result, without its `%`; none for an unnamed result, and where there is no result.
    pub name: Option<Bytes>,
    /// The type of the result; of a store the type of the stored value; else, without a result, `Void`.
    pub ty: Ty,
    pub op: Op,
    /// In the order of the form.
    pub opds: Opds,
}

impl TryClone for Inst {
    fn try_clone(&self, alloc: Global) -> Result<Self, AllocError> {
        Ok(Inst {
            id: self.id,
            name: self.name.try_clone(alloc)?,
            ty: self.ty,
            op: self.op.try_clone(alloc)?,
            opds: self.opds.try_clone(alloc)?,
        })
    }
}

impl Equal for Inst {
    fn equal(&self, other: &Self) -> bool {
        self.id.equal(&other.id)
            && self.name.equal(&other.name)
            && self.ty.equal(&other.ty)
            && self.op.equal(&other.op)
            && self.opds.equal(&other.opds)
    }
}
