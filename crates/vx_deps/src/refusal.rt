//! `OrderRefusal`: why bundles have no order.

ghost use Rattle.std.specs.Prelude.{◌≡◌};
ghost use Rattle.vx_deps.specs.declared.refusal.OrderRefusal.TheVariants.{OutOfMemory};

use ir_types::Ids;
use std::alloc::{AllocError, AllocFailed};
use thiserror::Error;
use vx_list::Seq;

/// A list of bundles, each a list of instructions; also the groups of a window, where each other instruction is one by itself.
pub type Bundles = Seq<Ids>;

/// Why the window of bundles was not put in order.
#[derive(Debug, Drop, Error)]
pub enum OrderRefusal {
    /// No order exists.
    #[error("the bundles depend on one another in a cycle")]
    NoOrder {
        /// Groups of which each has a member that a member of the next depends on, and the last one that the first depends on.
        cycle: Bundles,
    },
    /// There was no memory for the order.
    #[error("out of memory")]
    OutOfMemory,
}

impl From<AllocError> for OrderRefusal {
    ghost from_gives = { λ _ refusal. refusal ≡ OutOfMemory };

    fn from(_error: AllocError) -> OrderRefusal {
        OrderRefusal::OutOfMemory
    }
}

impl<T: Drop> From<AllocFailed<T>> for OrderRefusal {
    ghost from_gives = { λ _ refusal. refusal ≡ OutOfMemory };

    fn from(_error: AllocFailed<T>) -> OrderRefusal {
        OrderRefusal::OutOfMemory
    }
}
