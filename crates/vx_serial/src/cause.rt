//! `Cause`: why lanes are packed and not widened.
//!
//! Nothing here fails.

use std::alloc::{AllocError, Global};
use vx_list::{Equal, TryClone};

/// Why a bundle of lanes is put into a vector lane by lane; the first that holds, in this order.
#[derive(Clone, Copy, Debug, PartialEq, Eq)]
pub enum Cause {
    /// All lanes are literals.
    Constants,
    /// A lane is no instruction of the block, or is a phi.
    Outside,
    /// A lane is an operation that has no vector form.
    Kind,
    /// The lanes are not all one operation on the same types.
    Unlike,
    /// The vector, or that of an operand, has more than 512 bits.
    Wide,
    /// An instruction is a lane twice.
    Repeated,
    /// An instruction is a lane of an earlier bundle that is widened.
    Taken,
    /// A lane stands more than 255 instructions before the region's last store, or after it.
    Far,
    /// The lanes' accesses are not neighbours in order.
    Apart,
    /// The bundles so far and this one have no order.
    Cycle,
}

impl TryClone for Cause {
    fn try_clone(&self, _alloc: Global) -> Result<Self, AllocError> {
        Ok(*self)
    }
}

impl Equal for Cause {
    fn equal(&self, other: &Self) -> bool {
        match (self, other) {
            (Cause::Constants, Cause::Constants) => true,
            (Cause::Outside, Cause::Outside) => true,
            (Cause::Kind, Cause::Kind) => true,
            (Cause::Unlike, Cause::Unlike) => true,
            (Cause::Wide, Cause::Wide) => true,
            (Cause::Repeated, Cause::Repeated) => true,
            (Cause::Taken, Cause::Taken) => true,
            (Cause::Far, Cause::Far) => true,
            (Cause::Apart, Cause::Apart) => true,
            (Cause::Cycle, Cause::Cycle) => true,
            _ => false,
        }
    }
}
