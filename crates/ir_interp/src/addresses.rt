//! Addresses: where `getelementptr` takes a pointer.
//!
//! Nothing here fails. Undefined behaviour, as where shapes do not fit, is `None`. Sizes are kept modulo 2^64, which offsets wrap at.

ghost use Rattle.std.specs.Prelude.{◌≡◌, ◌≤◌, ◌*◌, ◌%◌, ◌^◌, Some};
ghost use Rattle.std.specs.Option.{option_copied};
ghost use Rattle.ir_model.specs.Values.{pointer_of};
ghost use Rattle.ir_model.specs.Sizes.{bytes_in, size_of, elem_size};
ghost use Rattle.ir_model.specs.Operations.{narrow};
ghost use Rattle.ir_model.specs.Addresses.{stepped, walked, address_value, is_within, is_inside, kept_inside, inbounds_value};
ghost use Rattle.ir_interp.specs.Walks.{walked_in};

use crate::lanes::low;
use ir_model::{Memory, Object, Value};
use ir_types::{Elem, Ty};
use vx_num::{Lane, advance};

/// A pointer: poison, or the number of an object and an offset in bytes.
pub(crate) type Pointer = Option<(u32, i64)>;

/// The pointer that a value is; what is no pointer counts as poison.
pub(crate) fn pointer_of(value: &Value) -> Pointer
    ensures { result ≡ pointer_of value.now }
{
    match value {
        Value::Ptr(pointer) => *pointer,
        _ => None,
    }
}

/// A pointer that goes on by an index of a width times a scale; poison where pointer or index is.
fn stepped(w: u8, scale: u64, pointer: Pointer, index: Lane) -> Pointer
    requires { w ≤ 64 }
    ensures { result ≡ stepped w scale pointer index }
{
    let (object, offset) = pointer?;
    let index = low(w, index)?;
    Some((object, advance(offset, index, u32::from(w), scale)))
}

/// The bytes of a type, of which only numbers lie in a memory.
pub(crate) fn size_of(ty: Ty) -> u64
    ensures { result ≡ size_of ty }
{
    match ty {
        Ty::Int(w) => u64::from(w / 8),
        Ty::Row { n, w } => u64::from(n) * u64::from(w / 8),
        _ => 0,
    }
}

/// The bytes of what a pointer is stepped over, modulo 2^64.
fn scale_of(elem: Elem) -> u64
    ensures { elem_size elem % 2 ^ 64 ≡ result }
{
    match elem {
        Elem::One(ty) => size_of(ty),
        Elem::Array { n, w } => array_scale(n, w),
    }
}

/// The bytes of an array, modulo 2^64.
fn array_scale(n: u64, w: u8) -> u64
    ensures { (n * bytes_in w) % 2 ^ 64 ≡ result }
{
    n.wrapping_mul(u64::from(w / 8))
}

/// The pointer after all indices: what is stepped over, the types of the operands, their values.
fn walked(elem: Elem, types: &[Ty], values: &[Value]) -> Option<Pointer>
    ensures { result ≡ walked elem types.now values.now }
{
    match (types, values) {
        ([_, Ty::Int(w)], [p, Value::Lane(index)]) => walked_once(elem, *w, pointer_of(p), *index),
        ([_, Ty::Int(w), Ty::Int(v)], [p, Value::Lane(index), Value::Lane(inner)]) => walked_in(
            elem,
            *w,
            *v,
            pointer_of(p),
            *index,
            *inner,
        ),
        _ => None,
    }
}

/// The pointer after an index that counts whole elements.
fn walked_once(elem: Elem, w: u8, pointer: Pointer, index: Lane) -> Option<Pointer>
    ensures { result ≡ narrow w (Some (stepped w (elem_size elem) pointer index)) }
{
    if w <= 64 {
        Some(stepped(w, scale_of(elem), pointer, index))
    } else {
        None
    }
}

/// The pointer after an index that counts whole arrays and one that counts what is in them.
fn walked_in(
    elem: Elem,
    w: u8,
    v: u8,
    pointer: Pointer,
    index: Lane,
    inner: Lane,
) -> Option<Pointer>
    ensures { result ≡ walked_in elem w v pointer index inner }
{
    match elem {
        Elem::Array { n, w: e } if w <= 64 && v <= 64 => Some(stepped(
            v,
            u64::from(e / 8),
            stepped(w, array_scale(n, e), pointer, index),
            inner,
        )),
        _ => None,
    }
}

/// The address (Language Reference, "getelementptr").
pub(crate) fn address_value(elem: Elem, ty: Ty, types: &[Ty], values: &[Value]) -> Option<Value>
    ensures { result ≡ address_value elem ty types.now values.now }
{
    match ty {
        Ty::Ptr => Some(Value::Ptr(walked(elem, types, values)?)),
        _ => None,
    }
}

/// Whether an offset lies from 0 to the length of an object that is there.
fn is_within(offset: i64, object: Option<&Object>) -> bool
    ensures { result ≡ is_within offset (option_copied object.entry) }
{
    match object {
        Some(object) => offset >= 0 && offset as u64 <= object.len() as u64,
        None => false,
    }
}

/// Whether a pointer lies in its object or at its end.
fn is_inside(memory: &Memory, pointer: Pointer) -> bool
    ensures { result ≡ is_inside memory.now pointer }
{
    match pointer {
        Some((object, offset)) => is_within(offset, memory.get(object as usize)),
        None => false,
    }
}

/// A pointer stepped `inbounds` from a base: poison unless both are inside their object.
fn kept_inside(memory: &Memory, base: Pointer, pointer: Pointer) -> Pointer
    ensures { result ≡ kept_inside memory.now base pointer }
{
    if is_inside(memory, base) && is_inside(memory, pointer) {
        pointer
    } else {
        None
    }
}

/// The address where it must stay inside its object (Language Reference, "getelementptr").
pub(crate) fn inbounds_value(
    elem: Elem,
    ty: Ty,
    types: &[Ty],
    values: &[Value],
    memory: &Memory,
) -> Option<Value>
    ensures { result ≡ inbounds_value elem ty types.now values.now memory.now }
{
    match (ty, values) {
        (Ty::Ptr, [base, ..]) => Some(Value::Ptr(kept_inside(
            memory,
            pointer_of(base),
            walked(elem, types, values)?,
        ))),
        _ => None,
    }
}
