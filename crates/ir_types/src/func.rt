//! Functions of the profile: parameters, blocks and the kept parts of the header.
//!
//! Nothing here fails but for want of memory.

use crate::{Blocks, Bytes, Id, Insts, Params, Ty};
use std::alloc::{AllocError, Global};
use vx_list::{Equal, TryClone};

/// A parameter.
#[derive(Debug, Drop)]
pub struct Param {
    pub id: Id,
    /// The written name, without its `%`.
    pub name: Option<Bytes>,
    pub ty: Ty,
    /// The attributes, as the bytes from their first to their last token.
    pub attrs: Bytes,
    /// Whether `noalias` stands among the attributes (Language Reference, "Parameter Attributes").
    pub noalias: bool,
}

/// A basic block.
#[derive(Debug, Drop)]
pub struct Block {
    /// The written label.
    pub name: Option<Bytes>,
    pub insts: Insts,
}

/// A function of the profile.
#[derive(Debug, Drop)]
pub struct Func {
    /// What stands between `define` and the type, as bytes.
    pub before: Bytes,
    pub ret: Ty,
    /// Without its `@`.
    pub name: Bytes,
    pub params: Params,
    /// What stands between the parameters and the brace, as bytes.
    pub after: Bytes,
    pub blocks: Blocks,
}

impl TryClone for Param {
    fn try_clone(&self, alloc: Global) -> Result<Self, AllocError> {
        Ok(Param {
            id: self.id,
            name: self.name.try_clone(alloc)?,
            ty: self.ty,
            attrs: self.attrs.try_clone(alloc)?,
            noalias: self.noalias,
        })
    }
}

impl Equal for Param {
    fn equal(&self, other: &Self) -> bool {
        self.id.equal(&other.id)
            && self.name.equal(&other.name)
            && self.ty.equal(&other.ty)
            && self.attrs.equal(&other.attrs)
            && self.noalias.equal(&other.noalias)
    }
}

impl TryClone for Block {
    fn try_clone(&self, alloc: Global) -> Result<Self, AllocError> {
        Ok(Block {
            name: self.name.try_clone(alloc)?,
            insts: self.insts.try_clone(alloc)?,
        })
    }
}

impl Equal for Block {
    fn equal(&self, other: &Self) -> bool {
        self.name.equal(&other.name) && self.insts.equal(&other.insts)
    }
}

impl TryClone for Func {
    fn try_clone(&self, alloc: Global) -> Result<Self, AllocError> {
        Ok(Func {
            before: self.before.try_clone(alloc)?,
            ret: self.ret,
            name: self.name.try_clone(alloc)?,
            params: self.params.try_clone(alloc)?,
            after: self.after.try_clone(alloc)?,
            blocks: self.blocks.try_clone(alloc)?,
        })
    }
}

impl Equal for Func {
    fn equal(&self, other: &Self) -> bool {
        self.before.equal(&other.before)
            && self.ret.equal(&other.ret)
            && self.name.equal(&other.name)
            && self.params.equal(&other.params)
            && self.after.equal(&other.after)
            && self.blocks.equal(&other.blocks)
    }
}
