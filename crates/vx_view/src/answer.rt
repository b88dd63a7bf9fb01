//! Answers to questions about a module.
//!
//! Nothing here fails but for want of memory.

use ir_types::{Id, Inst, Place, Ty, Uses};
use std::alloc::{AllocError, Global};
use vx_list::{Equal, TryClone};

/// What a module answers.
#[derive(Debug, Drop)]
pub enum Answer {
    /// The id that was named is not in the module.
    Nothing,
    /// The id is a parameter's.
    Param { noalias: bool, ty: Ty },
    /// The id is that of an instruction, which stands in this block.
    Inst { place: Place, inst: Inst },
    /// The instruction that was asked for; none after the last, before the first, and beside a parameter.
    At(Option<Id>),
    /// The slots that hold the value.
    Users(Uses),
}

impl TryClone for Answer {
    fn try_clone(&self, alloc: Global) -> Result<Self, AllocError> {
        match self {
            Answer::Nothing => Ok(Answer::Nothing),
            Answer::Param { noalias, ty } => Ok(Answer::Param {
                noalias: *noalias,
                ty: *ty,
            }),
            Answer::Inst { place, inst } => Ok(Answer::Inst {
                place: *place,
                inst: inst.try_clone(alloc)?,
            }),
            Answer::At(id) => Ok(Answer::At(*id)),
            Answer::Users(uses) => Ok(Answer::Users(uses.try_clone(alloc)?)),
        }
    }
}

impl Equal for Answer {
    fn equal(&self, other: &Self) -> bool {
        match (self, other) {
            (Answer::Nothing, Answer::Nothing) => true,
            (Answer::Param { noalias, ty }, Answer::Param { noalias: n, ty: t }) => noalias.equal(n)
                && ty.equal(t),
            (Answer::Inst { place, inst }, Answer::Inst { place: p, inst: i }) => place.equal(p)
                && inst.equal(i),
            (Answer::At(id), Answer::At(other)) => id.equal(other),
            (Answer::Users(uses), Answer::Users(other)) => uses.equal(other),
            _ => false,
        }
    }
}
