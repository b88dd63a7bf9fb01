//! Operands as they are written: names are not looked up yet.
//!
//! Nothing here fails but for want of memory.

use ir_types::{Bytes, Literal, Ty};
use std::alloc::{AllocError, Global};
use vx_list::{Equal, TryClone};

/// An operand as it is written.
#[derive(Debug, Drop)]
pub enum Written {
    /// A local by its name without `%`; an unnamed one by the digits of its number, without leading zeros.
    Local(Bytes),
    /// A global or a function by its plain name without `@`.
    Symbol(Bytes),
    /// A literal of the written type.
    Lit(Literal),
}

/// An operand with the type that is written for it.
#[derive(Debug, Drop)]
pub struct Arg {
    pub ty: Ty,
    pub opd: Written,
}

impl TryClone for Written {
    fn try_clone(&self, alloc: Global) -> Result<Self, AllocError> {
        match self {
            Written::Local(name) => Ok(Written::Local(name.try_clone(alloc)?)),
            Written::Symbol(name) => Ok(Written::Symbol(name.try_clone(alloc)?)),
            Written::Lit(literal) => Ok(Written::Lit(literal.try_clone(alloc)?)),
        }
    }
}

impl Equal for Written {
    fn equal(&self, other: &Self) -> bool {
        match (self, other) {
            (Written::Local(name), Written::Local(other)) => name.equal(other),
            (Written::Symbol(name), Written::Symbol(other)) => name.equal(other),
            (Written::Lit(literal), Written::Lit(other)) => literal.equal(other),
            _ => false,
        }
    }
}

impl TryClone for Arg {
    fn try_clone(&self, alloc: Global) -> Result<Self, AllocError> {
        Ok(Arg {
            ty: self.ty,
            opd: self.opd.try_clone(alloc)?,
        })
    }
}

impl Equal for Arg {
    fn equal(&self, other: &Self) -> bool {
        self.ty.equal(&other.ty) && self.opd.equal(&other.opd)
    }
}
