//! What the rules ask of instructions: whether their operation has a vector form, and whether two have one operation.
//!
//! Nothing here fails.

ghost use Rattle.std.specs.Prelude.{◌≡◌};
ghost use Rattle.ir_types.specs.Formed.{is_store};
ghost use Rattle.ir_types.specs.Typed.{is_scalar};
ghost use Rattle.vx_serial.specs.Legal.{is_kind, may_widen, same_op};
ghost use Rattle.vx_num.specs.Keywords.{bin_word, pred_word, cast_word};
ghost use Rattle.std.specs.Prelude.{bytes_eq};

use ir_types::{Inst, Op, Ty};
use vx_list::Equal;
use vx_num::{BinOp, CastOp, Pred};

/// Whether an operation that gives a value has a vector form.
pub fn is_kind(op: &Op) -> bool
    ensures { result ≡ is_kind op.now }
{
    match op {
        Op::Bin { .. } | Op::Icmp { .. } | Op::Cast { .. } | Op::Select | Op::Load { .. } => true,
        _ => false,
    }
}

/// Whether an operation is a store.
fn is_store(op: &Op) -> bool
    ensures { result ≡ is_store op.now }
{
    match op {
        Op::Store { .. } => true,
        _ => false,
    }
}

/// Whether a type is an integer.
fn is_scalar(ty: Ty) -> bool
    ensures { result ≡ is_scalar ty }
{
    match ty {
        Ty::Int(1 | 8 | 16 | 32 | 64) => true,
        _ => false,
    }
}

/// Whether an instruction may be a lane of what is widened: a store where no node is there yet, and elsewhere what gives an integer.
pub fn may_widen(is_root: bool, inst: &Inst) -> bool
    ensures { result ≡ may_widen is_root inst.now }
{
    if is_root {
        is_store(&inst.op)
    } else {
        is_kind(&inst.op) && is_scalar(inst.ty)
    }
}

/// Whether two binary operations are one.
fn same_bin(a: BinOp, b: BinOp) -> bool
    ensures { result ≡ bytes_eq (bin_word a) (bin_word b) }
{
    match (a, b) {
        (BinOp::Add, BinOp::Add) => true,
        (BinOp::Sub, BinOp::Sub) => true,
        (BinOp::Mul, BinOp::Mul) => true,
        (BinOp::Shl, BinOp::Shl) => true,
        (BinOp::Udiv, BinOp::Udiv) => true,
        (BinOp::Sdiv, BinOp::Sdiv) => true,
        (BinOp::Urem, BinOp::Urem) => true,
        (BinOp::Srem, BinOp::Srem) => true,
        (BinOp::Lshr, BinOp::Lshr) => true,
        (BinOp::Ashr, BinOp::Ashr) => true,
        (BinOp::And, BinOp::And) => true,
        (BinOp::Or, BinOp::Or) => true,
        (BinOp::Xor, BinOp::Xor) => true,
        _ => false,
    }
}

/// Whether two predicates are one.
fn same_pred(a: Pred, b: Pred) -> bool
    ensures { result ≡ bytes_eq (pred_word a) (pred_word b) }
{
    match (a, b) {
        (Pred::Eq, Pred::Eq) => true,
        (Pred::Ne, Pred::Ne) => true,
        (Pred::Ugt, Pred::Ugt) => true,
        (Pred::Uge, Pred::Uge) => true,
        (Pred::Ult, Pred::Ult) => true,
        (Pred::Ule, Pred::Ule) => true,
        (Pred::Sgt, Pred::Sgt) => true,
        (Pred::Sge, Pred::Sge) => true,
        (Pred::Slt, Pred::Slt) => true,
        (Pred::Sle, Pred::Sle) => true,
        _ => false,
    }
}

/// Whether two conversions are one.
fn same_cast(a: CastOp, b: CastOp) -> bool
    ensures { result ≡ bytes_eq (cast_word a) (cast_word b) }
{
    match (a, b) {
        (CastOp::Zext, CastOp::Zext) => true,
        (CastOp::Sext, CastOp::Sext) => true,
        (CastOp::Trunc, CastOp::Trunc) => true,
        _ => false,
    }
}

/// Whether two instructions are one operation, and of comparisons one predicate.
pub fn same_operation(a: &Op, b: &Op) -> bool
    ensures { result ≡ same_op a.now b.now }
{
    match (a, b) {
        (Op::Bin { op: a, .. }, Op::Bin { op: b, .. }) => same_bin(*a, *b),
        (Op::Icmp { pred: a }, Op::Icmp { pred: b }) => same_pred(*a, *b),
        (Op::Cast { op: a, .. }, Op::Cast { op: b, .. }) => same_cast(*a, *b),
        (Op::Select, Op::Select) => true,
        (Op::Load { .. }, Op::Load { .. }) => true,
        (Op::Store { .. }, Op::Store { .. }) => true,
        _ => false,
    }
}
