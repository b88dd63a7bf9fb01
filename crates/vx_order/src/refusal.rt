//! `OrderRefusal`: why groups have no order.

ghost use Rattle.std.specs.Prelude.{◌≡◌};
ghost use Rattle.vx_order.specs.declared.refusal.OrderRefusal.TheVariants.{OutOfMemory};

use crate::Cycle;
use std::alloc::{AllocError, AllocFailed};
use thiserror::Error;

/// Why groups were not put in order.
#[derive(Debug, Drop, Error)]
pub enum OrderRefusal {
    /// No order exists.
    #[error("the groups depend on one another in a cycle")]
    NoOrder {
        /// Groups of which each has an edge to the next, and the last to the first.
        cycle: Cycle,
    },
    /// There was no memory for the order.
    #[error("out of memory")]
    OutOfMemory,
}

impl From<AllocError> for OrderRefusal {
    ghost from_gives = { λ _ refusal. refusal ≡ OutOfMemory };

    fn from(_error: AllocError) -> OrderRefusal {
        OrderRefusal::OutOfMemory
    }
}

impl<T: Drop> From<AllocFailed<T>> for OrderRefusal {
    ghost from_gives = { λ _ refusal. refusal ≡ OutOfMemory };

    fn from(_error: AllocFailed<T>) -> OrderRefusal {
        OrderRefusal::OutOfMemory
    }
}
