//! What an instruction does, apart from its operands: one variant a form.
//!
//! A block is named by its number from 0 in its function. Aligns are powers of two from 1 to 2^32, in bytes. The parts of a `call`
//! stand after a pointer, so that the other forms are small; contracts see through it.

ghost use Rattle.std.specs.Prelude.{◌≡◌, IfOk};

use crate::{CallSite, Elem, Lits, Numbers};
use std::alloc::{AllocError, Global};
use vx_list::{Boxed, Equal, TryClone};
use vx_num::{BinOp, CastOp, Flags, Pred};

/// The operation of an instruction (Language Reference, "Instruction Reference").
#[derive(Debug, Drop)]
pub enum Op {
    /// `add` to `xor`, on two operands.
    Bin {
        op: BinOp,
        flags: Flags,
    },
    /// `icmp`, on two operands.
    Icmp {
        pred: Pred,
    },
    /// `zext`, `sext` or `trunc`, on one operand.
    Cast {
        op: CastOp,
        nneg: bool,
    },
    /// `select`, on a condition and two arms.
    Select,
    /// `extractelement`, on a vector and an index.
    Extract,
    /// `insertelement`, on a vector, a lane and an index.
    Insert,
    /// `shufflevector`, on two vectors; an entry of the mask names a lane of the first, then of the second, or is poison.
    Shuffle {
        mask: Lits,
    },
    /// `getelementptr`, on a pointer and one or two indices.
    Gep {
        elem: Elem,
        inbounds: bool,
    },
    /// `load`, on a pointer.
    Load {
        align: u64,
    },
    /// `store`, on a value and a pointer.
    Store {
        align: u64,
    },
    /// `alloca`, on nothing.
    Alloca {
        elem: Elem,
        align: Option<u64>,
    },
    /// `phi`, on one operand a block.
    Phi {
        blocks: Numbers,
    },
    /// `ret`, on a value or nothing.
    Ret,
    /// `br` without a condition.
    Br {
        to: u32,
    },
    /// `br` on a condition.
    CondBr {
        yes: u32,
        no: u32,
    },
    /// `switch`, on a number; case `cases[i]` goes to block `to[i]`.
    Switch {
        other: u32,
        cases: Lits,
        to: Numbers,
    },
    /// `unreachable`.
    Unreachable,
    /// `call` of a function of the module, on its arguments.
    Call(Boxed<CallSite>),
}

impl TryClone for Op {
    fn try_clone(&self, alloc: Global) -> Result<Self, AllocError> {
        match self {
            Op::Bin { op, flags } => Ok(Op::Bin {
                op: *op,
                flags: *flags,
            }),
            Op::Icmp { pred } => Ok(Op::Icmp { pred: *pred }),
            Op::Cast { op, nneg } => Ok(Op::Cast {
                op: *op,
                nneg: *nneg,
            }),
            Op::Select => Ok(Op::Select),
            Op::Extract => Ok(Op::Extract),
            Op::Insert => Ok(Op::Insert),
            Op::Shuffle { mask } => Ok(Op::Shuffle {
                mask: mask.try_clone(alloc)?,
            }),
            Op::Gep { elem, inbounds } => Ok(Op::Gep {
                elem: *elem,
                inbounds: *inbounds,
            }),
            Op::Load { align } => Ok(Op::Load { align: *align }),
            Op::Store { align } => Ok(Op::Store { align: *align }),
            Op::Alloca { elem, align } => Ok(Op::Alloca {
                elem: *elem,
                align: *align,
            }),
            Op::Phi { blocks } => Ok(Op::Phi {
                blocks: blocks.try_clone(alloc)?,
            }),
            Op::Ret => Ok(Op::Ret),
            Op::Br { to } => Ok(Op::Br { to: *to }),
            Op::CondBr { yes, no } => Ok(Op::CondBr { yes: *yes, no: *no }),
            Op::Switch { other, cases, to } => switch_copy(alloc, *other, cases, to),
            Op::Unreachable => Ok(Op::Unreachable),
            Op::Call(site) => Ok(Op::Call(site.try_clone(alloc)?)),
        }
    }
}

/// A copy of a `switch`.
fn switch_copy(alloc: Global, other: u32, cases: &Lits, to: &Numbers) -> Result<Op, AllocError>
    ensures { IfOk result (λ copy. copy ≡ Op.Switch other cases.now to.now) }
{
    Ok(Op::Switch {
        other,
        cases: cases.try_clone(alloc)?,
        to: to.try_clone(alloc)?,
    })
}

impl Equal for Op {
    fn equal(&self, other: &Self) -> bool {
        match (self, other) {
            (Op::Bin { op, flags }, Op::Bin { op: o, flags: f }) => op.equal(o) && flags.equal(f),
            (Op::Icmp { pred }, Op::Icmp { pred: p }) => pred.equal(p),
            (Op::Cast { op, nneg }, Op::Cast { op: o, nneg: n }) => op.equal(o) && nneg.equal(n),
            (Op::Select, Op::Select) => true,
            (Op::Extract, Op::Extract) => true,
            (Op::Insert, Op::Insert) => true,
            (Op::Shuffle { mask }, Op::Shuffle { mask: m }) => mask.equal(m),
            (
                Op::Gep { elem, inbounds },
                Op::Gep {
                    elem: e,
                    inbounds: i,
                },
            ) => elem.equal(e) && inbounds.equal(i),
            (Op::Load { align }, Op::Load { align: a }) => align.equal(a),
            (Op::Store { align }, Op::Store { align: a }) => align.equal(a),
            (Op::Alloca { elem, align }, Op::Alloca { elem: e, align: a }) => elem.equal(e)
                && align.equal(a),
            (Op::Phi { blocks }, Op::Phi { blocks: b }) => blocks.equal(b),
            (Op::Ret, Op::Ret) => true,
            (Op::Br { to }, Op::Br { to: t }) => to.equal(t),
            (Op::CondBr { yes, no }, Op::CondBr { yes: y, no: n }) => yes.equal(y) && no.equal(n),
            (
                Op::Switch { other, cases, to },
                Op::Switch {
                    other: o,
                    cases: c,
                    to: t,
                },
            ) => { other.equal(o) && cases.equal(c) && to.equal(t) }
            (Op::Unreachable, Op::Unreachable) => true,
            (Op::Call(site), Op::Call(other)) => site.equal(other),
            _ => false,
        }
    }
}
