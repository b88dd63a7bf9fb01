//! Types: of values (`Ty`), and of what a pointer is stepped over or an `alloca` makes (`Elem`).
//!
//! Nothing here fails. Widths are in bits: 1, 8, 16, 32 or 64. A vector has 2, 4, 8 or 16 lanes and at most 512 bits.

ghost use Rattle.std.specs.Prelude.{◌≡◌};
ghost use Rattle.ir_types.specs.Typed.{lane_width, same_ty};

use std::alloc::{AllocError, Global};
use vx_list::{Equal, TryClone};

/// The type of a value (Language Reference, "Type System").
#[derive(Clone, Copy, Debug, PartialEq, Eq)]
pub enum Ty {
    /// No value.
    Void,
    /// An integer of so many bits.
    Int(u8),
    /// A pointer.
    Ptr,
    /// A vector of `n` integers of `w` bits.
    Row { n: u8, w: u8 },
}

/// The element type of a `getelementptr` or an `alloca`.
#[derive(Clone, Copy, Debug, PartialEq, Eq)]
pub enum Elem {
    /// One value of a type.
    One(Ty),
    /// An array of `n` integers of `w` bits.
    Array { n: u64, w: u8 },
}

impl Ty {
    /// The bits of an integer, or of a lane of a vector; 0 of other types.
    pub fn lane_width(self) -> u8
        ensures { result ≡ lane_width self }
    {
        match self {
            Ty::Int(w) => w,
            Ty::Row { n: _, w } => w,
            Ty::Void | Ty::Ptr => 0,
        }
    }

    /// Whether both are one type.
    pub fn same(self, ty: Ty) -> bool
        ensures { result ≡ same_ty self ty }
    {
        match (self, ty) {
            (Ty::Void, Ty::Void) => true,
            (Ty::Int(w), Ty::Int(v)) => w == v,
            (Ty::Ptr, Ty::Ptr) => true,
            (Ty::Row { n, w }, Ty::Row { n: m, w: v }) => n == m && w == v,
            _ => false,
        }
    }
}

impl TryClone for Ty {
    fn try_clone(&self, _alloc: Global) -> Result<Self, AllocError> {
        Ok(*self)
    }
}

impl Equal for Ty {
    fn equal(&self, other: &Self) -> bool {
        match (*self, *other) {
            (Ty::Void, Ty::Void) => true,
            (Ty::Int(w), Ty::Int(v)) => w == v,
            (Ty::Ptr, Ty::Ptr) => true,
            (Ty::Row { n, w }, Ty::Row { n: m, w: v }) => n == m && w == v,
            _ => false,
        }
    }
}

impl TryClone for Elem {
    fn try_clone(&self, _alloc: Global) -> Result<Self, AllocError> {
        Ok(*self)
    }
}

impl Equal for Elem {
    fn equal(&self, other: &Self) -> bool {
        match (self, other) {
            (Elem::One(ty), Elem::One(other)) => ty.equal(other),
            (Elem::Array { n, w }, Elem::Array { n: m, w: v }) => n == m && w == v,
            _ => false,
        }
    }
}
