//! Accesses: what loads, stores and allocas do to a memory, and what they give.
//!
//! Each fails for want of memory alone; a memory of more objects or bytes than can be counted is such a want. Undefined behaviour,
//! as an access outside its object or at a misaligned offset, is `None` or false. A memory is changed in place.

ghost use Rattle.std.specs.Prelude.{◌≡◌, ◌≤◌, ◌<◌, ◌+◌, ◌%◌, Some, IfOk, IfSome, length, nat_eq, option_map, slice_get};
ghost use Rattle.ir_model.specs.Sizes.{elem_size};
ghost use Rattle.ir_model.specs.Memory.{place_of, put, loaded_from, loaded, stored_in};
ghost use Rattle.ir_model.specs.Accesses.{value_effect, memory_effect, bytes_of, typed_load, load_effect, load_row_effect, store_effect, alloca_effect, fresh_object};
ghost use Rattle.ir_interp.specs.Effects.{stored_if, effect_with};

use crate::addresses::{Pointer, size_of};
use crate::bytes::{Byte, bytes_of, lane_from, lanes_from};
use ir_model::{Memory, Object, Value};
use ir_types::{Elem, Ty};
use std::alloc::{AllocError, Global};
use vx_list::OutOfMemory;

/// The place of an access of so many bytes in an object of a length, if it has one.
fn place_of(offset: i64, size: usize, align: u64, len: usize) -> Option<usize>
    ensures value { result ≡ place_of offset size align len }
    ensures within { IfSome result (λ at. at + size ≤ len) }
{
    if offset < 0 {
        return None;
    }
    let at = offset as usize;
    if size <= len && at <= len - size && is_aligned(at as u64, align) {
        Some(at)
    } else {
        None
    }
}

/// Whether a place is a multiple of an align; of the align 0, which no module that is formed has, only the place 0 is.
fn is_aligned(at: u64, align: u64) -> bool
    ensures { result ≡ nat_eq (at % align) 0 }
{
    if align == 0 { at == 0 } else { at % align == 0 }
}

/// The bytes of an object from the place of an access on.
fn loaded_from(offset: i64, size: usize, align: u64, object: &Object) -> Option<&[Byte]>
    ensures { option_map (λ bytes. bytes.now) result ≡ loaded_from offset size align (Some object.now) }
{
    let bytes = object.as_slice();
    let at = place_of(offset, size, align, bytes.len())?;
    Some(&bytes[at..])
}

/// The bytes that a load of so many finds first, if it is defined.
fn loaded(size: usize, align: u64, pointer: Pointer, memory: &Memory) -> Option<&[Byte]>
    ensures { option_map (λ bytes. bytes.now) result ≡ loaded size align pointer memory.now }
{
    let (number, offset) = pointer?;
    loaded_from(offset, size, align, memory.get(number as usize)?)
}

/// The value that a load of a type gives (Language Reference, "load").
pub(crate) fn typed_load(
    alloc: Global,
    align: u64,
    ty: Ty,
    pointer: Pointer,
    memory: &Memory,
) -> Result<Option<Value>, OutOfMemory>
    ensures { IfOk result (λ value. value_effect value memory.now ≡ typed_load align ty pointer memory.now) }
{
    match ty {
        Ty::Int(w) if w <= 64 => Ok(load_lane(usize::from(w / 8), align, pointer, memory)),
        Ty::Row { n, w } if w <= 64 => load_row(
            alloc,
            usize::from(n),
            usize::from(w / 8),
            align,
            pointer,
            memory,
        ),
        _ => Ok(None),
    }
}

/// The lane of so many bytes that a load gives.
fn load_lane(size: usize, align: u64, pointer: Pointer, memory: &Memory) -> Option<Value>
    requires { size ≤ 8 }
    ensures { value_effect result memory.now ≡ load_effect size align pointer memory.now }
{
    let bytes = loaded(size, align, pointer, memory)?;
    Some(Value::Lane(lane_from(size, bytes)))
}

/// The lanes of so many bytes each that a load gives.
fn load_row(
    alloc: Global,
    count: usize,
    size: usize,
    align: u64,
    pointer: Pointer,
    memory: &Memory,
) -> Result<Option<Value>, OutOfMemory>
    requires count { count < 256 }
    requires size { size ≤ 8 }
    ensures { IfOk result (λ value. value_effect value memory.now ≡ load_row_effect count size align pointer memory.now) }
{
    match loaded(count * size, align, pointer, memory) {
        Some(bytes) => Ok(Some(Value::Row(lanes_from(alloc, count, size, bytes)?))),
        None => Ok(None),
    }
}

/// Stores a value of a type, and says whether that is defined (Language Reference, "store").
pub(crate) fn typed_store(
    alloc: Global,
    align: u64,
    ty: Ty,
    value: &Value,
    pointer: Pointer,
    memory: &mut Memory,
) -> Result<bool, OutOfMemory>
    ensures { IfOk result (λ done. stored_if done memory.new ≡ store_effect align (bytes_of ty value.now) pointer memory.old) }
{
    match bytes_of(alloc, ty, value)? {
        Some(bytes) => Ok(store(alloc, align, bytes.as_slice(), pointer, memory)),
        None => Ok(false),
    }
}

/// Stores bytes, and says whether that is defined.
fn store(alloc: Global, align: u64, bytes: &[Byte], pointer: Pointer, memory: &mut Memory) -> bool
    ensures { stored_if result memory.new ≡ store_effect align (Some bytes.now) pointer memory.old }
{
    match pointer {
        Some((number, offset)) => store_in(alloc, align, bytes, number as usize, offset, memory),
        None => false,
    }
}

/// Stores bytes at an offset in the object of a number, and says whether that is defined.
fn store_in(
    alloc: Global,
    align: u64,
    bytes: &[Byte],
    number: usize,
    offset: i64,
    memory: &mut Memory,
) -> bool
    ensures { stored_if result memory.new ≡ memory_effect (stored_in memory.old number offset align bytes.now (slice_get memory.old number)) }
{
    let Some(object) = memory.get(number) else {
        return false;
    };
    let Some(at) = place_of(offset, bytes.len(), align, object.len()) else {
        return false;
    };
    let mut written = memory.replace(number, Object::new(alloc));
    put(bytes, at, &mut written);
    memory.replace(number, written);
    true
}

/// Puts bytes over those of an object from a place on.
fn put(bytes: &[Byte], at: usize, object: &mut Object)
    requires { at + length bytes.now ≤ length object.old }
    ensures { object.new ≡ put bytes.now at object.old }
{
    let _room = object.len();
    for i in 0..bytes.len() {
        object.replace(at + i, bytes[i]);
    }
}

/// Makes a new last object of poison, and gives the pointer to its start (Language Reference, "alloca").
pub(crate) fn alloca(alloc: Global, elem: Elem, memory: &mut Memory) -> Result<Value, OutOfMemory>
    ensures { IfOk result (λ value. effect_with value memory.new ≡ alloca_effect elem memory.old) }
{
    let Ok(number) = u32::try_from(memory.len()) else {
        return Err(AllocError);
    };
    memory.push(fresh_object(alloc, elem)?)?;
    Ok(Value::Ptr(Some((number, 0))))
}

/// An object of the poison bytes of an element.
fn fresh_object(alloc: Global, elem: Elem) -> Result<Object, OutOfMemory>
    ensures { IfOk result (λ object. object ≡ fresh_object (elem_size elem)) }
{
    let Some(size) = elem_size(elem) else {
        return Err(AllocError);
    };
    let mut object = Object::with_capacity(alloc, size)?;
    for _ in 0..size {
        object.push(None)?;
    }
    Ok(object)
}

/// The bytes of an element, where so many can be counted.
fn elem_size(elem: Elem) -> Option<usize>
    ensures { IfSome result (λ size. size ≡ elem_size elem) }
{
    match elem {
        Elem::One(ty) => Some(size_of(ty) as usize),
        Elem::Array { n, w } => Some(n.checked_mul(u64::from(w / 8))? as usize),
    }
}
