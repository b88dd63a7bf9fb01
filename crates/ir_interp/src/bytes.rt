//! Bytes of lanes, low byte first.
//!
//! What makes lists fails for want of memory alone, the rest not at all. A byte is a number or, where it is none, poison.

ghost use Rattle.std.specs.Prelude.{◌≡◌, ◌≤◌, ◌<◌, ◌+◌, ◌*◌, ◌^◌, ℕ, ◌++◌, IfOk, OnOk, drop};
ghost use Rattle.vx_num.specs.Width.{IsLane};
ghost use Rattle.ir_model.specs.Memory.{lane_bytes, row_bytes, with_low, lane_from};
ghost use Rattle.ir_model.specs.Accesses.{bytes_of, lanes_from};
ghost use Rattle.ir_interp.specs.Lowest.{low_byte, above_low};

use ir_model::{Object, Value};
use ir_types::{Lits, Ty};
use std::alloc::Global;
use vx_list::OutOfMemory;
use vx_num::Lane;

/// A byte of a memory.
pub(crate) type Byte = Option<u8>;

/// Puts the bytes of a lane after others.
fn push_lane(bytes: &mut Object, size: usize, lane: Lane) -> Result<(), OutOfMemory>
    ensures { OnOk result (bytes.new ≡ bytes.old ++ lane_bytes size lane) }
{
    let mut rest = lane;
    for _ in 0..size {
        bytes.push(low_byte(rest))?;
        rest = above_low(rest);
    }
    Ok(())
}

/// The low byte of a lane.
fn low_byte(lane: Lane) -> Byte
    ensures { result ≡ low_byte lane }
{
    Some((lane? % 256) as u8)
}

/// What is above the low byte of a lane.
fn above_low(lane: Lane) -> Lane
    ensures { result ≡ above_low lane }
{
    Some(lane? / 256)
}

/// The bytes of lanes, one after another.
fn row_bytes(alloc: Global, size: usize, lanes: &[Lane]) -> Result<Object, OutOfMemory>
    ensures { IfOk result (λ bytes. bytes ≡ row_bytes size lanes.now) }
{
    let mut bytes = Object::new(alloc);
    for lane in lanes {
        push_lane(&mut bytes, size, *lane)?;
    }
    Ok(bytes)
}

/// The bytes of a lane.
fn lane_bytes(alloc: Global, size: usize, lane: Lane) -> Result<Object, OutOfMemory>
    ensures { IfOk result (λ bytes. bytes ≡ lane_bytes size lane) }
{
    let mut bytes = Object::new(alloc);
    push_lane(&mut bytes, size, lane)?;
    Ok(bytes)
}

/// The bytes of a value of a type that can be stored.
pub(crate) fn bytes_of(alloc: Global, ty: Ty, value: &Value) -> Result<Option<Object>, OutOfMemory>
    ensures { IfOk result (λ bytes. bytes ≡ bytes_of ty value.now) }
{
    match (ty, value) {
        (Ty::Int(w), Value::Lane(lane)) => Ok(Some(lane_bytes(alloc, usize::from(w / 8), *lane)?)),
        (Ty::Row { w, .. }, Value::Row(lanes)) => Ok(Some(row_bytes(
            alloc,
            usize::from(w / 8),
            lanes.as_lanes().as_slice(),
        )?)),
        _ => Ok(None),
    }
}

/// A byte below a number.
fn with_low(byte: Byte, high: Lane) -> Lane
    requires { IsLane 56 high }
    ensures value { result ≡ with_low byte high }
    ensures lane { (k : ℕ) → IsLane (8 * k) high → IsLane (8 + 8 * k) result }
{
    match (byte, high) {
        (Some(byte), Some(high)) => Some(joined(byte, high)),
        _ => None,
    }
}

/// The number of a byte and what is above it.
fn joined(byte: u8, high: u64) -> u64
    requires { high < 2 ^ 56 }
    ensures value { result ≡ byte + 256 * high }
    ensures bound { (k : ℕ) → high < 2 ^ (8 * k) → result < 2 ^ (8 + 8 * k) }
{
    u64::from(byte) + 256 * high
}

/// The lane that the first so many bytes are; one poison byte makes it poison.
pub(crate) fn lane_from(size: usize, bytes: &[Byte]) -> Lane
    requires { size ≤ 8 }
    ensures value { result ≡ lane_from size bytes.now }
    ensures lane { IsLane (8 * size) result }
{
    if size == 0 {
        return Some(0);
    }
    match bytes {
        [byte, more @ ..] => with_low(*byte, lane_from(size - 1, more)),
        [] => None,
    }
}

/// The lanes of so many bytes each that bytes begin with.
pub(crate) fn lanes_from(
    alloc: Global,
    count: usize,
    size: usize,
    bytes: &[Byte],
) -> Result<Lits, OutOfMemory>
    requires { size ≤ 8 }
    ensures { IfOk result (λ lanes. lanes ≡ lanes_from count size bytes.now) }
{
    let mut lanes = Lits::new(alloc);
    let mut rest = bytes;
    for _ in 0..count {
        lanes.push(lane_from(size, rest))?;
        rest = after(rest, size);
    }
    Ok(lanes)
}

/// The bytes after the first so many.
fn after(bytes: &[Byte], size: usize) -> &[Byte]
    ensures { result.now ≡ drop size bytes.now }
{
    if size <= bytes.len() {
        &bytes[size..]
    } else {
        &bytes[bytes.len()..]
    }
}
