//! Statements: instructions whose names are not looked up yet.
//!
//! Nothing here fails but for want of memory.

use crate::Args;
use ir_types::{Bytes, Names, Op, Ty};
use std::alloc::{AllocError, Global};
use vx_list::{Equal, TryClone};

/// An instruction as one line has it (Language Reference, "Instruction Reference").
#[derive(Debug, Drop)]
pub struct Stmt {
    /// The name of the result without `%`; of an unnamed one the digits of its number.
    pub result: Option<Bytes>,
    /// The type of the result; of a store the type of the stored value; else, without a result, `Void`.
    pub ty: Ty,
    /// What is done; a block number in it is a place in `labels`. A `switch` has no cases yet.
    pub op: Op,
    pub args: Args,
    /// The blocks that the line names, in its order, without `%`.
    pub labels: Names,
}

impl TryClone for Stmt {
    fn try_clone(&self, alloc: Global) -> Result<Self, AllocError> {
        Ok(Stmt {
            result: self.result.try_clone(alloc)?,
            ty: self.ty,
            op: self.op.try_clone(alloc)?,
            args: self.args.try_clone(alloc)?,
            labels: self.labels.try_clone(alloc)?,
        })
    }
}

impl Equal for Stmt {
    fn equal(&self, other: &Self) -> bool {
        self.result.equal(&other.result)
            && self.ty.equal(&other.ty)
            && self.op.equal(&other.op)
            && self.args.equal(&other.args)
            && self.labels.equal(&other.labels)
    }
}
