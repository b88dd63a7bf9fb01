//! What a `getelementptr` adds to its pointer.
//!
//! It is taken whole or not at all: a poison index, an index that is a global, and a second value that is no literal make it end a walk.
//! Nothing here fails but for want of memory.

ghost use Rattle.std.specs.Prelude.{◌≡◌, ◌≤◌, ◌<◌, ◌*◌, ◌/◌, ◌^◌, IfOk, IsTrue, option_map, true};
ghost use Rattle.std.specs.List.{All};
ghost use Rattle.ir_types.specs.Typed.{IsStep, IsLiteral, is_width};
ghost use Rattle.ir_types.specs.Formed.{IsOpd};
ghost use Rattle.vx_view.specs.Addresses.{scales_of, with_symbol, with_lane, with_index, with_indices, led_op};
ghost use Rattle.vx_addr.specs.Parts.{as_offset, as_led, IsPlain};

use crate::offset::Offset;
use ir_types::{Elem, Id, Inst, Literal, Op, Opd, OutOfMemory, Ty};
use std::alloc::Global;
use vx_list::TryClone;
use vx_num::advance;

/// Whether a number is one of a width.
fn is_number(width: u8, number: u64) -> bool
    ensures fits { IsTrue result → (width ≤ 64) × (number < 2 ^ width) }
    ensures all { is_width width ≡ true → number < 2 ^ width → result ≡ true }
{
    match width {
        1 => number < 2,
        8 => number < 256,
        16 => number < 65_536,
        32 => number < 4_294_967_296,
        64 => true,
        _ => false,
    }
}

/// With a literal index.
fn with_literal(literal: &Literal, scale: u64, offset: Offset) -> Option<Offset>
    ensures { IsLiteral literal.now → option_map as_offset result ≡ with_lane literal.now.ty literal.now.lanes scale (as_offset offset) }
{
    let lanes = literal.lanes.as_lanes();
    match (literal.ty, lanes.as_slice()) {
        (Ty::Int(width), [Some(number)]) if is_number(width, *number) => Some(Offset {
            symbol: offset.symbol,
            constant: advance(offset.constant, *number, u32::from(width), scale),
        }),
        _ => None,
    }
}

/// With a value that is no literal, where there is none yet.
fn with_symbol(id: Id, scale: u64, offset: Offset) -> Option<Offset>
    ensures { option_map as_offset result ≡ with_symbol (id, scale) (as_offset offset) }
{
    match offset.symbol {
        None => Some(Offset {
            symbol: Some((id, scale)),
            constant: offset.constant,
        }),
        Some(_) => None,
    }
}

/// With one index.
fn with_index(index: &Opd, scale: u64, offset: Offset) -> Option<Offset>
    ensures { IsOpd index.now → option_map as_offset result ≡ with_index index.now scale (as_offset offset) }
{
    match index {
        Opd::Lit(literal) => with_literal(literal, scale, offset),
        Opd::Val(id) => with_symbol(*id, scale, offset),
        Opd::Sym(_) => None,
    }
}

/// With each index by its scale.
fn with_indices(scales: &[u64], indices: &[Opd], offset: Offset) -> Option<Offset>
    ensures { All IsOpd indices.now → option_map as_offset result ≡ with_indices scales.now indices.now (as_offset offset) }
{
    match (indices, scales) {
        ([], _) => Some(offset),
        ([index, indices @ ..], [scale, scales @ ..]) => match with_index(index, *scale, offset) {
            Some(offset) => with_indices(scales, indices, offset),
            None => None,
        },
        ([_, ..], []) => None,
    }
}

/// With the indices of a `getelementptr` over an element type.
fn with_elem(elem: Elem, indices: &[Opd], offset: Offset) -> Option<Offset>
    ensures { IsStep elem → All IsOpd indices.now → option_map as_offset result ≡ with_indices (scales_of elem) indices.now (as_offset offset) }
{
    match elem {
        Elem::One(Ty::Int(width)) => with_indices(&[u64::from(width / 8)], indices, offset),
        Elem::One(_) => with_indices(&[], indices, offset),
        Elem::Array { n, w } => {
            let item = u64::from(w / 8);
            with_indices(&[n.checked_mul(item)?, item], indices, offset)
        }
    }
}

/// The pointer that a `getelementptr` steps from, and what is added to it.
pub(crate) fn led_op(
    alloc: Global,
    inst: &Inst,
    offset: Offset,
) -> Result<Option<(Opd, Offset)>, OutOfMemory>
    ensures { IfOk result (λ led. IsPlain inst.now → option_map as_led led ≡ led_op inst.now.op inst.now.opds (as_offset offset)) }
{
    match (&inst.op, inst.opds.as_slice()) {
        (Op::Gep { elem, .. }, [pointer, indices @ ..]) => match with_elem(*elem, indices, offset) {
            Some(offset) => Ok(Some((pointer.try_clone(alloc)?, offset))),
            None => Ok(None),
        },
        _ => Ok(None),
    }
}
