//! Operands: what stands in a slot of an instruction.
//!
//! Nothing here fails but for want of memory.

use crate::{Id, Literal};
use std::alloc::{AllocError, Global};
use vx_list::{Equal, TryClone};

/// An operand.
#[derive(Debug, Drop)]
pub enum Opd {
    /// A parameter or an instruction of the same function.
    Val(Id),
    /// A literal.
    Lit(Literal),
    /// The global of this number, from 0 in the module's list of globals.
    Sym(u32),
}

/// The blank that fills the unused places of a short list; it means nothing.
impl Default for Opd {
    fn default() -> Opd {
        Opd::Sym(0)
    }
}

impl TryClone for Opd {
    fn try_clone(&self, alloc: Global) -> Result<Self, AllocError> {
        match self {
            Opd::Val(id) => Ok(Opd::Val(*id)),
            Opd::Lit(literal) => Ok(Opd::Lit(literal.try_clone(alloc)?)),
            Opd::Sym(global) => Ok(Opd::Sym(*global)),
        }
    }
}

impl Equal for Opd {
    fn equal(&self, other: &Self) -> bool {
        match (self, other) {
            (Opd::Val(id), Opd::Val(other)) => id.equal(other),
            (Opd::Lit(literal), Opd::Lit(other)) => literal.equal(other),
            (Opd::Sym(global), Opd::Sym(other)) => global == other,
            _ => false,
        }
    }
}
