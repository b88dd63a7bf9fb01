//! `Refusal`: why the questions were not answered.
//!
//! Each has an exit status, and a line that tells it.

ghost use Rattle.std.specs.Prelude.{◌≡◌};
ghost use Rattle.vec_inspect.specs.declared.refusal.Refusal.TheVariants.{OutOfMemory};

use std::alloc::{AllocError, AllocFailed};
use thiserror::Error;

/// Why the questions were not answered.
#[derive(Debug, Drop, Error)]
pub enum Refusal {
    /// The words ask nothing.
    #[error("ask: form P [USER], conflict A B, reach S.., order A,B.. C,D.. (`/` between questions, `repeat N` before all)")]
    NoQuestion,
    /// A value that no function has.
    #[error("{word}: no such value or global")]
    Unknown { word: String },
    /// A name that more than one function has.
    #[error("{word}: more than one function has it, so it is written @FUNCTION:%NAME")]
    Shared { word: String },
    /// A parameter, where an instruction is asked for.
    #[error("{word}: no instruction")]
    NoInstruction { word: String },
    /// A value that is no pointer, and no instruction that accesses memory.
    #[error("{word}: no pointer, load or store")]
    NoPointer { word: String },
    /// An instruction that stands in another block than the first one.
    #[error("{word}: in another block")]
    Elsewhere { word: String },
    /// A member of two bundles, or of one twice.
    #[error("{word}: a member twice")]
    Twice { word: String },
    /// A member that is not among those that end at the last of the first bundle.
    #[error("{word}: not among the 256 that end at the last of the first bundle")]
    Outside { word: String },
    /// The first bundle has no reach.
    #[error("the first bundle's members lie too far apart")]
    Far,
    /// The input is no module that is accepted.
    #[error("no module")]
    NoModule,
    /// A read failed.
    #[error("read fault")]
    ReadFault,
    /// The input has too many bytes.
    #[error("limit: bytes")]
    TooLong,
    /// There was no memory.
    #[error("no memory")]
    OutOfMemory,
}

impl From<AllocError> for Refusal {
    ghost from_gives = { λ _ refusal. refusal ≡ OutOfMemory };

    fn from(_error: AllocError) -> Refusal {
        Refusal::OutOfMemory
    }
}

impl<T: Drop> From<AllocFailed<T>> for Refusal {
    ghost from_gives = { λ _ refusal. refusal ≡ OutOfMemory };

    fn from(_error: AllocFailed<T>) -> Refusal {
        Refusal::OutOfMemory
    }
}

impl Refusal {
    /// The exit status.
    pub(crate) fn status(&self) -> u8 {
        match self {
            Refusal::NoModule => 1,
            Refusal::ReadFault => 3,
            Refusal::TooLong => 5,
            Refusal::OutOfMemory => 6,
            _ => 2,
        }
    }
}
