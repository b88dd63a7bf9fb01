//! The lanes of vectors: taking one, replacing one, and choosing of two vectors.
//!
//! Each function fails for want of memory alone. Undefined behaviour, as where a vector has not the lanes of its type, is `None`.

ghost use Rattle.std.specs.Prelude.{◌≡◌, ◌<◌, ◌++◌, IfOk, OnOk, length, map, slice_set};
ghost use Rattle.ir_model.specs.Operations.{extract_value, insert_value, shuffle_value, all_poison, lane_at, with_lane_at};

use ir_model::Value;
use ir_types::{Lits, Ty};
use std::alloc::Global;
use vx_list::OutOfMemory;
use vx_num::Lane;

/// The lane at an index, of the type of the vector (Language Reference, "extractelement").
pub(crate) fn extract_value(ty: Ty, values: &[Value]) -> Option<Value>
    ensures { result ≡ extract_value ty values.now }
{
    match (ty, values) {
        (Ty::Row { n, .. }, [Value::Row(lanes), Value::Lane(index)]) => {
            if lanes.len() == usize::from(n) {
                Some(Value::Lane(lane_at(lanes.as_lanes().as_slice(), *index)))
            } else {
                None
            }
        }
        _ => None,
    }
}

/// The lane at an index; poison where there is none.
fn lane_at(lanes: &[Lane], index: Lane) -> Lane
    ensures { result ≡ lane_at lanes.now index }
{
    match lanes.get(index? as usize) {
        Some(lane) => *lane,
        None => None,
    }
}

/// The vector with one lane replaced (Language Reference, "insertelement").
pub(crate) fn insert_value(
    alloc: Global,
    ty: Ty,
    values: &[Value],
) -> Result<Option<Value>, OutOfMemory>
    ensures { IfOk result (λ value. value ≡ insert_value ty values.now) }
{
    match (ty, values) {
        (Ty::Row { n, .. }, [Value::Row(lanes), Value::Lane(lane), Value::Lane(index)]) => {
            if lanes.len() == usize::from(n) {
                Ok(Some(Value::Row(with_lane_at(
                    alloc,
                    lanes.as_lanes().as_slice(),
                    *lane,
                    *index,
                )?)))
            } else {
                Ok(None)
            }
        }
        _ => Ok(None),
    }
}

/// The lanes with one replaced; all poison where the index is.
fn with_lane_at(alloc: Global, lanes: &[Lane], lane: Lane, index: Lane) -> Result<Lits, OutOfMemory>
    ensures { IfOk result (λ done. done ≡ with_lane_at lanes.now lane index) }
{
    match index {
        Some(at) if at < lanes.len() as u64 => replaced(alloc, lanes, at as usize, lane),
        _ => all_poison(alloc, lanes),
    }
}

/// The lanes with the one at a place replaced.
fn replaced(alloc: Global, lanes: &[Lane], at: usize, lane: Lane) -> Result<Lits, OutOfMemory>
    requires { at < length lanes.now }
    ensures { IfOk result (λ done. done ≡ slice_set lanes.now at lane) }
{
    let mut done = Lits::new(alloc);
    push_all(&mut done, &lanes[..at])?;
    done.push(lane)?;
    push_all(&mut done, &lanes[at + 1..])?;
    Ok(done)
}

/// Puts lanes after others.
fn push_all(lanes: &mut Lits, more: &[Lane]) -> Result<(), OutOfMemory>
    ensures { OnOk result (lanes.new ≡ lanes.old ++ more.now) }
{
    for lane in more {
        lanes.push(*lane)?;
    }
    Ok(())
}

/// As many lanes of poison.
fn all_poison(alloc: Global, lanes: &[Lane]) -> Result<Lits, OutOfMemory>
    ensures { IfOk result (λ done. done ≡ all_poison lanes.now) }
{
    let mut done = Lits::new(alloc);
    for _lane in lanes {
        done.push(None)?;
    }
    Ok(done)
}

/// Lanes of two vectors of a type, one for each entry of a mask (Language Reference, "shufflevector").
pub(crate) fn shuffle_value(
    alloc: Global,
    mask: &[Lane],
    ty: Ty,
    values: &[Value],
) -> Result<Option<Value>, OutOfMemory>
    ensures { IfOk result (λ value. value ≡ shuffle_value mask.now ty values.now) }
{
    match (ty, values) {
        (Ty::Row { n, .. }, [Value::Row(left), Value::Row(right)]) => {
            if left.len() == usize::from(n) && right.len() == usize::from(n) {
                Ok(Some(Value::Row(shuffled(
                    alloc,
                    mask,
                    left.as_lanes().as_slice(),
                    right.as_lanes().as_slice(),
                )?)))
            } else {
                Ok(None)
            }
        }
        _ => Ok(None),
    }
}

/// The lanes that a mask takes of two vectors, one after another.
fn shuffled(
    alloc: Global,
    mask: &[Lane],
    left: &[Lane],
    right: &[Lane],
) -> Result<Lits, OutOfMemory>
    ensures { IfOk result (λ done. done ≡ map (lane_at (left.now ++ right.now)) mask.now) }
{
    let mut done = Lits::new(alloc);
    for entry in mask {
        done.push(lane_of_two(left, right, *entry))?;
    }
    Ok(done)
}

/// The lane at an index of two vectors, one after another.
fn lane_of_two(left: &[Lane], right: &[Lane], index: Lane) -> Lane
    ensures { result ≡ lane_at (left.now ++ right.now) index }
{
    let at = index? as usize;
    if at < left.len() {
        left[at]
    } else {
        lane_at(right, Some((at - left.len()) as u64))
    }
}
