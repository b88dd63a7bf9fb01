//! The header of a function of the profile.
//!
//! Nothing here fails but for want of memory.

use ir_types::{Bytes, Params, Ty};
use std::alloc::{AllocError, Global};
use vx_list::{Equal, TryClone};

/// What a `define` line says (Language Reference, "Functions").
#[derive(Debug, Drop)]
pub struct Head {
    /// What stands between `define` and the type, as the bytes from its first to its last token.
    pub before: Bytes,
    pub ret: Ty,
    /// Without its `@`.
    pub name: Bytes,
    /// A parameter's id is region 0 and its place from 0.
    pub params: Params,
    /// What stands between the parameters and the last brace, as the bytes from its first to its last token.
    pub after: Bytes,
}

impl TryClone for Head {
    fn try_clone(&self, alloc: Global) -> Result<Self, AllocError> {
        Ok(Head {
            before: self.before.try_clone(alloc)?,
            ret: self.ret,
            name: self.name.try_clone(alloc)?,
            params: self.params.try_clone(alloc)?,
            after: self.after.try_clone(alloc)?,
        })
    }
}

impl Equal for Head {
    fn equal(&self, other: &Self) -> bool {
        self.before.equal(&other.before)
            && self.ret.equal(&other.ret)
            && self.name.equal(&other.name)
            && self.params.equal(&other.params)
            && self.after.equal(&other.after)
    }
}
