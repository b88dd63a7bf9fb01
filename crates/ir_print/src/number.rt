//! Types and literals, put after what is written already.
//!
//! Want of memory is the only failure, and may leave a part of the text after.

ghost use Rattle.std.specs.Prelude.{◌≡◌, ◌-◌, ◌^◌, ◌≤◌, ◌++◌, OnOk, codes, nat_eq, nat_lt, slice_get, if◌then◌else◌, false};
ghost use Rattle.std.specs.List.{list_all};
ghost use Rattle.std.specs.Fmt.{decimal};
ghost use Rattle.vx_digits.specs.Lanes as lanes;
ghost use Rattle.ir_print.specs.Literals as literals;

use ir_types::{Elem, Literal, Ty};
use std::alloc::AllocError;
use vx_digits::{push_decimal, push_lane};
use vx_num::Lane;

/// A type.
pub(crate) fn push_ty(out: &mut Vec<u8>, ty: Ty) -> Result<(), AllocError>
    ensures { OnOk result (out.new.items ≡ out.old.items ++ literals.ty_text ty) }
{
    match ty {
        Ty::Void => out.extend_from_slice(b"void")?,
        Ty::Int(w) => push_int(out, w)?,
        Ty::Ptr => out.extend_from_slice(b"ptr")?,
        Ty::Row { n, w } => push_row(out, n as u64, w)?,
    }
    Ok(())
}

/// An integer type; those of most modules in one piece.
fn push_int(out: &mut Vec<u8>, w: u8) -> Result<(), AllocError>
    ensures { OnOk result (out.new.items ≡ out.old.items ++ (codes "i" ++ decimal w)) }
{
    match w {
        8 => out.extend_from_slice(b"i8")?,
        32 => out.extend_from_slice(b"i32")?,
        64 => out.extend_from_slice(b"i64")?,
        _ => {
            out.extend_from_slice(b"i")?;
            push_decimal(out, w as u64)?
        }
    }
    Ok(())
}

fn push_row(out: &mut Vec<u8>, n: u64, w: u8) -> Result<(), AllocError>
    ensures { OnOk result (out.new.items ≡ out.old.items ++ codes "<" ++ (decimal n ++ (codes " x i" ++ (decimal w ++ codes ">")))) }
{
    out.extend_from_slice(b"<")?;
    push_decimal(out, n)?;
    out.extend_from_slice(b" x i")?;
    push_decimal(out, w as u64)?;
    out.extend_from_slice(b">")?;
    Ok(())
}

/// What a `getelementptr` steps over, or an `alloca` makes.
pub(crate) fn push_elem(out: &mut Vec<u8>, elem: Elem) -> Result<(), AllocError>
    ensures { OnOk result (out.new.items ≡ out.old.items ++ literals.elem_text elem) }
{
    match elem {
        Elem::One(ty) => push_ty(out, ty),
        Elem::Array { n, w } => push_array(out, n, w),
    }
}

fn push_array(out: &mut Vec<u8>, n: u64, w: u8) -> Result<(), AllocError>
    ensures { OnOk result (out.new.items ≡ out.old.items ++ codes "[" ++ (decimal n ++ (codes " x i" ++ (decimal w ++ codes "]")))) }
{
    out.extend_from_slice(b"[")?;
    push_decimal(out, n)?;
    out.extend_from_slice(b" x i")?;
    push_decimal(out, w as u64)?;
    out.extend_from_slice(b"]")?;
    Ok(())
}

/// A literal.
pub(crate) fn push_literal(out: &mut Vec<u8>, literal: &Literal) -> Result<(), AllocError>
    ensures { OnOk result (out.new.items ≡ out.old.items ++ literals.literal_text literal.now) }
{
    match literal.ty {
        Ty::Void => Ok(()),
        Ty::Ptr => {
            out.extend_from_slice(b"poison")?;
            Ok(())
        }
        Ty::Int(w) => push_scalar(out, w, literal.lanes.as_lanes().as_slice()),
        Ty::Row { n: _, w } => push_vector(out, w, literal.lanes.as_lanes().as_slice()),
    }
}

fn push_scalar(out: &mut Vec<u8>, w: u8, lanes: &[Lane]) -> Result<(), AllocError>
    ensures { OnOk result (out.new.items ≡ out.old.items ++ literals.scalar_text w (slice_get lanes.now 0)) }
{
    match lanes {
        [] => Ok(()),
        [lane, ..] => push_lane(out, w, *lane),
    }
}

/// The lanes of a vector, in the shortest of its three spellings.
pub(crate) fn push_vector(out: &mut Vec<u8>, w: u8, lanes: &[Lane]) -> Result<(), AllocError>
    ensures { OnOk result (out.new.items ≡ out.old.items ++ literals.vector_text w lanes.now) }
{
    if all_poison(lanes) {
        out.extend_from_slice(b"poison")?;
        return Ok(());
    }
    if all_zero(lanes) {
        out.extend_from_slice(b"zeroinitializer")?;
        return Ok(());
    }
    push_lanes(out, w, lanes)
}

fn all_poison(lanes: &[Lane]) -> bool
    ensures { result ≡ list_all literals.is_poison lanes.now }
{
    for lane in lanes {
        if lane.is_some() {
            return false;
        }
    }
    true
}

fn all_zero(lanes: &[Lane]) -> bool
    ensures { result ≡ list_all literals.is_zero lanes.now }
{
    for lane in lanes {
        if !is_zero(*lane) {
            return false;
        }
    }
    true
}

fn is_zero(lane: Lane) -> bool
    ensures { result ≡ literals.is_zero lane }
{
    match lane {
        None => false,
        Some(n) => n == 0,
    }
}

fn push_lanes(out: &mut Vec<u8>, w: u8, lanes: &[Lane]) -> Result<(), AllocError>
    ensures { OnOk result (out.new.items ≡ out.old.items ++ literals.lanes_text w lanes.now) }
{
    match lanes {
        [] => Ok(()),
        [first, rest @ ..] => {
            out.extend_from_slice(b"<i")?;
            push_typed_lane(out, w, *first)?;
            push_more_lanes(out, w, rest)?;
            out.extend_from_slice(b">")?;
            Ok(())
        }
    }
}

fn push_typed_lane(out: &mut Vec<u8>, w: u8, lane: Lane) -> Result<(), AllocError>
    ensures { OnOk result (out.new.items ≡ out.old.items ++ (decimal w ++ (codes " " ++ lanes.lane_text w lane))) }
{
    push_decimal(out, w as u64)?;
    out.extend_from_slice(b" ")?;
    push_lane(out, w, lane)?;
    Ok(())
}

fn push_more_lanes(out: &mut Vec<u8>, w: u8, lanes: &[Lane]) -> Result<(), AllocError>
    ensures { OnOk result (out.new.items ≡ out.old.items ++ literals.more_lanes_text w lanes.now) }
{
    for lane in lanes {
        out.extend_from_slice(b", i")?;
        push_typed_lane(out, w, *lane)?;
    }
    Ok(())
}
