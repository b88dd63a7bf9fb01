//! `AvailRefusal`: why a module's uses were not all found available.
//!
//! `NotAvailable` names a use and a walk to it; `OutOfMemory` says nothing of the module.

ghost use Rattle.std.specs.Prelude.{◌≡◌};
ghost use Rattle.ir_avail.specs.declared.refusal.AvailRefusal.TheVariants.{OutOfMemory};

use ir_types::{Id, Numbers};
use std::alloc::AllocError;
use thiserror::Error;

/// Why a module's uses were not all found available.
#[derive(Debug, Drop, Error)]
pub enum AvailRefusal {
    /// The first use whose definition does not stand before it on each walk.
    #[error("a use is not available along a walk")]
    NotAvailable {
        /// The instruction that uses the value.
        user: Id,
        /// The operand, from 0.
        slot: u32,
        /// The numbers of the blocks of the shortest walk on which the definition is missing, the least among those.
        walk: Numbers,
    },
    /// There was no memory.
    #[error("out of memory")]
    OutOfMemory,
}

impl From<AllocError> for AvailRefusal {
    ghost from_gives = { λ _ refusal. refusal ≡ OutOfMemory };

    fn from(_error: AllocError) -> AvailRefusal {
        AvailRefusal::OutOfMemory
    }
}
