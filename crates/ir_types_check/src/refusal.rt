//! `ResolveRefusal`: why a draft is no module.

ghost use Rattle.std.specs.Prelude.{◌≡◌};
ghost use Rattle.ir_types_check.specs.declared.refusal.ResolveRefusal.TheVariants.{OutOfMemory};

use ir_types::Bytes;
use std::alloc::{AllocError, AllocFailed};
use thiserror::Error;

/// Why the names or the types of a draft are not those of a module. Lines are counted from 1; a name has its `@` or `%`.
#[derive(Debug, Drop, Error)]
pub enum ResolveRefusal {
    /// The first line that defines a name again.
    #[error("line {line}: defined twice")]
    TwiceDefined { line: u32, name: Bytes },
    /// The first line that uses a name which means nothing there.
    #[error("line {line}: unknown")]
    Unknown { line: u32, name: Bytes },
    /// The first line whose types, targets, cases or incoming blocks do not fit.
    #[error("line {line}: ill typed")]
    IllTyped { line: u32 },
    /// There was no memory for the module.
    #[error("out of memory")]
    OutOfMemory,
}

impl From<AllocError> for ResolveRefusal {
    ghost from_gives = { λ _ refusal. refusal ≡ OutOfMemory };

    fn from(_error: AllocError) -> ResolveRefusal {
        ResolveRefusal::OutOfMemory
    }
}

impl<T: Drop> From<AllocFailed<T>> for ResolveRefusal {
    ghost from_gives = { λ _ refusal. refusal ≡ OutOfMemory };

    fn from(_error: AllocFailed<T>) -> ResolveRefusal {
        ResolveRefusal::OutOfMemory
    }
}
