//! `Seed`: a region, as it is found in a module.
//!
//! Nothing here fails but for want of memory. What the regions of a module are stands in `specs/Regions.antt`.

use ir_types::{Ids, Place};
use std::alloc::{AllocError, Global};
use vx_list::{Equal, TryClone};

/// Stores of one block that may become one vector store.
#[derive(Debug, Drop)]
pub struct Seed {
    pub place: Place,
    /// At least two, in order of their addresses.
    pub stores: Ids,
}

impl TryClone for Seed {
    fn try_clone(&self, alloc: Global) -> Result<Self, AllocError> {
        Ok(Seed {
            place: self.place,
            stores: self.stores.try_clone(alloc)?,
        })
    }
}

impl Equal for Seed {
    fn equal(&self, other: &Self) -> bool {
        self.place.equal(&other.place) && self.stores.equal(&other.stores)
    }
}
