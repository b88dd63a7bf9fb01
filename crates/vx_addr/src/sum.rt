//! What a sum with a literal adds to an offset.
//!
//! A sum is an addition, or an `or` of disjoint numbers, of 64 bits. Nothing here fails.

ghost use Rattle.std.specs.Prelude.{◌≡◌, ◌&&◌, option_map};
ghost use Rattle.vx_view.specs.Addresses.{is_wide, is_sum, plus, summed, summed_by};
ghost use Rattle.vx_view.specs.Addresses as view;
ghost use Rattle.vx_addr.specs.Parts.{as_offset, as_summand};

use crate::offset::Offset;
use ir_types::{Id, Inst, Op, Opd, Ty};
use vx_num::{BinOp, advance};

/// What a sum adds.
#[derive(Clone, Copy, Debug)]
pub(crate) enum Summand {
    Number(u64),
    Poison,
    Value(Id),
    Other,
}

/// An operand of a sum.
fn summand_of(opd: &Opd) -> Summand
    ensures { as_summand result ≡ view.summand opd.now }
{
    match opd {
        Opd::Val(id) => Summand::Value(*id),
        Opd::Lit(literal) => match literal.lanes.as_lanes().as_slice() {
            [Some(number)] => Summand::Number(*number),
            [None] => Summand::Poison,
            _ => Summand::Other,
        },
        Opd::Sym(_) => Summand::Other,
    }
}

/// A number of 64 bits times the scale goes into the constant.
fn plus(number: u64, scale: u64, symbol: Option<(Id, u64)>, constant: i64) -> Offset
    ensures { as_offset result ≡ plus number scale symbol constant }
{
    Offset {
        symbol,
        constant: advance(constant, number, 64, scale),
    }
}

/// Two summands, of which one is a number.
fn summed(a: Summand, b: Summand, scale: u64, constant: i64) -> Option<Offset>
    ensures { option_map as_offset result ≡ summed (as_summand a) (as_summand b) scale constant }
{
    match (a, b) {
        (Summand::Number(n), Summand::Value(v)) | (Summand::Value(v), Summand::Number(n)) => {
            Some(plus(n, scale, Some((v, scale)), constant))
        }
        (Summand::Number(n), Summand::Number(k)) => {
            Some(plus(k, scale, None, advance(constant, n, 64, scale)))
        }
        (Summand::Number(n), Summand::Poison) | (Summand::Poison, Summand::Number(n)) => {
            Some(plus(n, scale, None, constant))
        }
        _ => None,
    }
}

/// Whether an operation adds.
fn is_sum(op: &Op) -> bool
    ensures { result ≡ is_sum op.now }
{
    match op {
        Op::Bin { op: BinOp::Add, .. } => true,
        Op::Bin {
            op: BinOp::Or,
            flags,
        } => flags.disjoint,
        _ => false,
    }
}

/// Whether a type is an integer of 64 bits.
fn is_wide(ty: Ty) -> bool
    ensures { result ≡ is_wide ty }
{
    match ty {
        Ty::Int(width) => width == 64,
        _ => false,
    }
}

/// What a sum makes of a symbol's scale and a constant.
pub(crate) fn summed_by(inst: &Inst, scale: u64, constant: i64) -> Option<Offset>
    ensures { option_map as_offset result ≡ summed_by (is_wide inst.now.ty && is_sum inst.now.op) inst.now.opds scale constant }
{
    match (is_wide(inst.ty) && is_sum(&inst.op), inst.opds.as_slice()) {
        (true, [a, b]) => summed(summand_of(a), summand_of(b), scale, constant),
        _ => None,
    }
}
