//! Lines outside functions that are kept as they are, and what is read of them.
//!
//! Nothing here fails but for want of memory.

use ir_types::Bytes;
use std::alloc::{AllocError, Global};
use vx_list::{Equal, TryClone};

/// A kept line (Language Reference, "Module Structure").
#[derive(Debug, Drop)]
pub struct Kept {
    /// The line without its trailing spaces, its comment included.
    pub text: Bytes,
    /// The plain name, without `@`, of a line `@name = ..`.
    pub symbol: Option<Bytes>,
    /// Whether that name is a global: none of the words `alias`, `ifunc`, `extern_weak` and `addrspace` stands on the line.
    pub global: bool,
    /// The first plain name, without `@`, of a `declare` line.
    pub declared: Option<Bytes>,
    /// Whether it is a `target datalayout` line with the part `E`.
    pub big_endian: bool,
    /// Whether it is a `target datalayout` line that gives pointers of address space 0 a size other than 64 bits.
    pub other_pointers: bool,
}

impl TryClone for Kept {
    fn try_clone(&self, alloc: Global) -> Result<Self, AllocError> {
        Ok(Kept {
            text: self.text.try_clone(alloc)?,
            symbol: self.symbol.try_clone(alloc)?,
            global: self.global,
            declared: self.declared.try_clone(alloc)?,
            big_endian: self.big_endian,
            other_pointers: self.other_pointers,
        })
    }
}

impl Equal for Kept {
    fn equal(&self, other: &Self) -> bool {
        self.text.equal(&other.text)
            && self.symbol.equal(&other.symbol)
            && self.global.equal(&other.global)
            && self.declared.equal(&other.declared)
            && self.big_endian.equal(&other.big_endian)
            && self.other_pointers.equal(&other.other_pointers)
    }
}
