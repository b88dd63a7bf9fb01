//! Values: what an operand stands for while a function runs.
//!
//! Nothing here fails but for want of memory. A lane is a number below 2^width or, where it is none, poison; a pointer is poison
//! or names a byte of an object, by the object's number from 0 in the memory and an offset in bytes.

ghost use Rattle.std.specs.Prelude.{◌≡◌, ◌↔◌, IsTrue};

use ir_types::Lits;
use std::alloc::{AllocError, Global};
use vx_list::{Equal, TryClone};
use vx_num::Lane;

/// A value (Language Reference, "Poison Values", "Vector Type", "Pointer Type").
#[derive(Debug, Drop)]
pub enum Value {
    /// An integer.
    Lane(Lane),
    /// The lanes of a vector, in order.
    Row(Lits),
    /// A pointer.
    Ptr(Option<(u32, i64)>),
}

impl TryClone for Value {
    fn try_clone(&self, alloc: Global) -> Result<Self, AllocError> {
        match self {
            Value::Lane(lane) => Ok(Value::Lane(*lane)),
            Value::Row(lanes) => Ok(Value::Row(lanes.try_clone(alloc)?)),
            Value::Ptr(pointer) => Ok(Value::Ptr(*pointer)),
        }
    }
}

impl Equal for Value {
    fn equal(&self, other: &Self) -> bool {
        match (self, other) {
            (Value::Lane(lane), Value::Lane(other)) => lane.equal(other),
            (Value::Row(lanes), Value::Row(other)) => lanes.equal(other),
            (Value::Ptr(pointer), Value::Ptr(other)) => same_pointer(*pointer, *other),
            _ => false,
        }
    }
}

/// Whether both pointers are poison, or name the same byte.
fn same_pointer(left: Option<(u32, i64)>, right: Option<(u32, i64)>) -> bool
    ensures { IsTrue result ↔ (left ≡ right) }
{
    match (left, right) {
        (Some((object, offset)), Some((o, d))) => object == o && offset == d,
        (None, None) => true,
        _ => false,
    }
}
