//! What a `call` says beside its arguments.
//!
//! Nothing here fails but for want of memory.

use crate::{Bytes, Texts};
use std::alloc::{AllocError, Global};
use vx_list::{Equal, TryClone};

/// The parts of a `call` (Language Reference, "call Instruction"); all but the callee are kept texts.
#[derive(Debug, Drop)]
pub struct CallSite {
    /// What stands before `call`.
    pub tail: Bytes,
    /// What stands between `call` and the type.
    pub pre: Bytes,
    /// The function's name, without its `@`.
    pub callee: Bytes,
    /// The attributes of each argument.
    pub attrs: Texts,
    /// What stands after the arguments.
    pub post: Bytes,
}

impl TryClone for CallSite {
    fn try_clone(&self, alloc: Global) -> Result<Self, AllocError> {
        Ok(CallSite {
            tail: self.tail.try_clone(alloc)?,
            pre: self.pre.try_clone(alloc)?,
            callee: self.callee.try_clone(alloc)?,
            attrs: self.attrs.try_clone(alloc)?,
            post: self.post.try_clone(alloc)?,
        })
    }
}

impl Equal for CallSite {
    fn equal(&self, other: &Self) -> bool {
        self.tail.equal(&other.tail)
            && self.pre.equal(&other.pre)
            && self.callee.equal(&other.callee)
            && self.attrs.equal(&other.attrs)
            && self.post.equal(&other.post)
    }
}
