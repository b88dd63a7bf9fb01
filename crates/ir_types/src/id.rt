//! Ids, places and uses: how values, blocks and operand slots are named by number.
//!
//! Nothing here fails.

ghost use Rattle.std.specs.Prelude.{◌≡◌};
ghost use Rattle.ir_types.specs.Available.{same_id};

use std::alloc::{AllocError, Global};
use vx_list::{Equal, TryClone};

/// The name of a value: a parameter or an instruction.
#[derive(Clone, Copy, Debug, PartialEq, Eq, Hash)]
pub struct Id {
    /// 0 for what was read; the region's number plus 1 for what its rewriting created.
    pub region: u32,
    /// Counts, for region 0, parameters and instructions in order over the module; else what the region created, from 0.
    pub k: u32,
}

/// A block of a module.
#[derive(Clone, Copy, Debug, PartialEq, Eq)]
pub struct Place {
    /// Counts the functions of the profile from 0 in order of items.
    pub func: u32,
    /// Counts the function's blocks from 0.
    pub block: u32,
}

/// One operand slot that holds a value.
#[derive(Clone, Copy, Debug, PartialEq, Eq)]
pub struct Use {
    /// The instruction whose slot it is.
    pub user: Id,
    /// Counts the instruction's operands from 0.
    pub slot: u32,
}

impl Id {
    /// Whether both are one id.
    pub fn same(self, id: Id) -> bool
        ensures { result ≡ same_id self id }
    {
        self.region == id.region && self.k == id.k
    }
}

impl TryClone for Id {
    fn try_clone(&self, _alloc: Global) -> Result<Self, AllocError> {
        Ok(*self)
    }

    fn clone_all(items: &[Id], alloc: Global) -> Result<Vec<Id>, AllocError> {
        Vec::from_slice(alloc, items)
    }
}

impl Equal for Id {
    fn equal(&self, other: &Self) -> bool {
        self.region == other.region && self.k == other.k
    }
}

impl TryClone for Place {
    fn try_clone(&self, _alloc: Global) -> Result<Self, AllocError> {
        Ok(*self)
    }
}

impl Equal for Place {
    fn equal(&self, other: &Self) -> bool {
        self.func == other.func && self.block == other.block
    }
}

impl TryClone for Use {
    fn try_clone(&self, _alloc: Global) -> Result<Self, AllocError> {
        Ok(*self)
    }
}

impl Equal for Use {
    fn equal(&self, other: &Self) -> bool {
        self.user.equal(&other.user) && self.slot == other.slot
    }
}
