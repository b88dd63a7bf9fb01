// Copying and equality of the names of operations, which are plain enums: a copy is the value, and `==` is equality.
// Nothing here fails, nor takes memory.

use crate::operations::{BinOp, CastOp, Flags, Pred};
use std::alloc::{AllocError, Global};
use vx_list::{Equal, TryClone};

impl TryClone for BinOp {
    fn try_clone(&self, _alloc: Global) -> Result<Self, AllocError> {
        Ok(*self)
    }
}

impl Equal for BinOp {
    fn equal(&self, other: &Self) -> bool {
        *self == *other
    }
}

impl TryClone for Pred {
    fn try_clone(&self, _alloc: Global) -> Result<Self, AllocError> {
        Ok(*self)
    }
}

impl Equal for Pred {
    fn equal(&self, other: &Self) -> bool {
        *self == *other
    }
}

impl TryClone for CastOp {
    fn try_clone(&self, _alloc: Global) -> Result<Self, AllocError> {
        Ok(*self)
    }
}

impl Equal for CastOp {
    fn equal(&self, other: &Self) -> bool {
        *self == *other
    }
}

impl TryClone for Flags {
    fn try_clone(&self, _alloc: Global) -> Result<Self, AllocError> {
        Ok(*self)
    }
}

impl Equal for Flags {
    fn equal(&self, other: &Self) -> bool {
        *self == *other
    }
}
