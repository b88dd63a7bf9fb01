//! Arithmetic, comparisons, conversions and choices of values, by one function for each form.
//!
//! Each fails for want of memory alone. Undefined behaviour, as where shapes do not fit, is `None`.

ghost use Rattle.std.specs.Prelude.{◌≡◌, ◌≤◌, IfOk, map, option_map};
ghost use Rattle.ir_model.specs.declared.value.Value.TheVariants.{Row as RowValue};
ghost use Rattle.ir_model.specs.Operations.{bin_value, cmp_value, cast_value, select_value, cast_lane, chosen_lanes, paired, single};
ghost use Rattle.ir_interp.specs.Pairing.{IsNarrow, lanewise};

use crate::lanes::{cast_lane, chosen_by};
use crate::pairing::Pairing;
use ir_model::Value;
use ir_types::{Lits, Ty};
use std::alloc::Global;
use vx_list::OutOfMemory;
use vx_num::{BinOp, CastOp, Flags, Lane, Pred};

/// A binary operation (Language Reference, "Binary Operations" and "Bitwise Binary Operations").
pub(crate) fn bin_value(
    alloc: Global,
    op: BinOp,
    flags: Flags,
    ty: Ty,
    values: &[Value],
) -> Result<Option<Value>, OutOfMemory>
    ensures { IfOk result (λ value. value ≡ bin_value op flags ty values.now) }
{
    let w = ty.lane_width();
    if w <= 64 {
        paired(alloc, Pairing::Bin { op, flags, w }, ty, values)
    } else {
        Ok(None)
    }
}

/// A comparison: the type of the result, the type of what is compared (Language Reference, "icmp").
pub(crate) fn cmp_value(
    alloc: Global,
    pred: Pred,
    ty: Ty,
    compared: Ty,
    values: &[Value],
) -> Result<Option<Value>, OutOfMemory>
    ensures { IfOk result (λ value. value ≡ cmp_value pred ty compared values.now) }
{
    let w = compared.lane_width();
    if w <= 64 {
        paired(alloc, Pairing::Cmp { pred, w }, ty, values)
    } else {
        Ok(None)
    }
}

/// An operation on two operands of a type.
fn paired(
    alloc: Global,
    by: Pairing,
    ty: Ty,
    values: &[Value],
) -> Result<Option<Value>, OutOfMemory>
    requires { IsNarrow by }
    ensures { IfOk result (λ value. value ≡ paired (lanewise by) ty values.now) }
{
    match (ty, values) {
        (Ty::Int(_), [Value::Lane(a), Value::Lane(b)]) => match by.lane(*a, *b) {
            Some(lane) => Ok(Some(Value::Lane(lane))),
            None => Ok(None),
        },
        (Ty::Row { .. }, [Value::Row(left), Value::Row(right)]) => Ok(row(by.each_pair(
            alloc,
            left.as_lanes().as_slice(),
            right.as_lanes().as_slice(),
        )?)),
        _ => Ok(None),
    }
}

/// A conversion: the type of the result, the type of the operand (Language Reference, "Conversion Operations").
pub(crate) fn cast_value(
    alloc: Global,
    op: CastOp,
    nneg: bool,
    ty: Ty,
    from: Ty,
    values: &[Value],
) -> Result<Option<Value>, OutOfMemory>
    ensures { IfOk result (λ value. value ≡ cast_value op nneg ty from values.now) }
{
    let source = from.lane_width();
    let target = ty.lane_width();
    if source > 64 || target > 64 {
        return Ok(None);
    }
    match (ty, values) {
        (Ty::Int(_), [Value::Lane(a)]) => Ok(Some(Value::Lane(cast_lane(
            op, nneg, source, target, *a,
        )))),
        (Ty::Row { .. }, [Value::Row(lanes)]) => Ok(Some(Value::Row(cast_lanes(
            alloc,
            op,
            nneg,
            source,
            target,
            lanes.as_lanes().as_slice(),
        )?))),
        _ => Ok(None),
    }
}

/// A conversion of each lane.
fn cast_lanes(
    alloc: Global,
    op: CastOp,
    nneg: bool,
    from: u8,
    to: u8,
    lanes: &[Lane],
) -> Result<Lits, OutOfMemory>
    requires source { from ≤ 64 }
    requires target { to ≤ 64 }
    ensures { IfOk result (λ done. done ≡ map (cast_lane op nneg from to) lanes.now) }
{
    let mut done = Lits::new(alloc);
    for lane in lanes {
        done.push(cast_lane(op, nneg, from, to, *lane))?;
    }
    Ok(done)
}

/// What a condition chooses, by lanes where it is a vector (Language Reference, "select").
pub(crate) fn select_value(
    alloc: Global,
    ty: Ty,
    values: &[Value],
) -> Result<Option<Value>, OutOfMemory>
    ensures { IfOk result (λ value. value ≡ select_value ty values.now) }
{
    match (ty, values) {
        (Ty::Int(_), [Value::Lane(c), Value::Lane(a), Value::Lane(b)]) => Ok(Some(Value::Lane(
            chosen_by(*c, *a, *b),
        ))),
        (Ty::Ptr, [Value::Lane(c), Value::Ptr(p), Value::Ptr(q)]) => Ok(Some(Value::Ptr(chosen_by(
            *c, *p, *q,
        )))),
        (Ty::Row { .. }, [Value::Lane(c), Value::Row(left), Value::Row(right)]) => Ok(row(
            Pairing::Choice(*c).each_pair(
                alloc,
                left.as_lanes().as_slice(),
                right.as_lanes().as_slice(),
            )?,
        )),
        (Ty::Row { .. }, [Value::Row(conditions), Value::Row(left), Value::Row(right)]) => Ok(row(
            chosen_lanes(
                alloc,
                conditions.as_lanes().as_slice(),
                left.as_lanes().as_slice(),
                right.as_lanes().as_slice(),
            )?,
        )),
        _ => Ok(None),
    }
}

/// The vector of lanes that are defined.
fn row(lanes: Option<Lits>) -> Option<Value>
    ensures { result ≡ option_map RowValue lanes }
{
    Some(Value::Row(lanes?))
}

/// What each lane of a condition chooses.
fn chosen_lanes(
    alloc: Global,
    conditions: &[Lane],
    left: &[Lane],
    right: &[Lane],
) -> Result<Option<Lits>, OutOfMemory>
    ensures { IfOk result (λ lanes. lanes ≡ chosen_lanes conditions.now left.now right.now) }
{
    let mut done = Lits::new(alloc);
    let mut chosen = left;
    let mut other = right;
    for c in conditions {
        let [a, more @ ..] = chosen else {
            return Ok(None);
        };
        let [b, others @ ..] = other else {
            return Ok(None);
        };
        done.push(chosen_by(*c, *a, *b))?;
        chosen = more;
        other = others;
    }
    match (chosen, other) {
        ([], []) => Ok(Some(done)),
        _ => Ok(None),
    }
}
