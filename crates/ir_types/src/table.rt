//! The table of costs.
//!
//! Nothing here fails. The places 0 to 19 are of the keys `int`, `vint`, `mul`, `vmul`, `div`, `vdiv`, `cmp`, `vcmp`, `cast`,
//! `vcast`, `select`, `vselect`, `load`, `vload`, `store`, `vstore`, `addr`, `insert`, `extract` and `shuffle`.

ghost use Rattle.std.specs.Prelude.{◌≡◌, ◌∷◌, [], replicate};

use std::alloc::{AllocError, Global};
use vx_list::{Equal, TryClone};

/// What an instruction of each kind costs; a plain number without unit.
#[derive(Clone, Copy, Debug, PartialEq, Eq)]
pub struct Table {
    pub costs: [u32; 20],
}

impl Table {
    /// The costs of a common processor: of each key in its place.
    pub fn base() -> Table
        ensures { result.costs ≡ 1 ∷ 1 ∷ 3 ∷ 3 ∷ 10 ∷ 40 ∷ 1 ∷ 1 ∷ 1 ∷ 1 ∷ 1 ∷ 1 ∷ 1 ∷ 1 ∷ 1 ∷ 1 ∷ 0 ∷ 1 ∷ 1 ∷ 1 ∷ [] }
    {
        Table {
            costs: [1, 1, 3, 3, 10, 40, 1, 1, 1, 1, 1, 1, 1, 1, 1, 1, 0, 1, 1, 1],
        }
    }

    /// The cost 1 for every key.
    pub fn unit() -> Table
        ensures { result.costs ≡ replicate 20 1 }
    {
        Table { costs: [1; 20] }
    }
}

impl TryClone for Table {
    fn try_clone(&self, _alloc: Global) -> Result<Self, AllocError> {
        Ok(*self)
    }
}

impl Equal for Table {
    fn equal(&self, other: &Self) -> bool {
        self.costs == other.costs
    }
}
