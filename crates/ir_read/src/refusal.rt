//! `ReadRefusal`: why a text is no draft; `Limit`: which limit it passes.

ghost use Rattle.std.specs.Prelude.{◌≡◌};
ghost use Rattle.ir_read.specs.declared.refusal.ReadRefusal.TheVariants.{OutOfMemory};

use std::alloc::{AllocError, AllocFailed};
use thiserror::Error;

/// A limit of modules.
#[derive(Clone, Copy, Debug, PartialEq, Eq, Error)]
pub enum Limit {
    /// Instructions in the module.
    #[error("instructions")]
    Instructions,
    /// Parameters and instructions of one function.
    #[error("values")]
    Values,
    /// Blocks of one function.
    #[error("blocks")]
    Blocks,
}

/// Why a text was not read. Lines and bytes are counted from 1.
#[derive(Clone, Copy, Debug, PartialEq, Eq, Error)]
pub enum ReadRefusal {
    /// The first lexical fault.
    #[error("line {line} byte {byte}: lexical fault")]
    Lex { line: u32, byte: u32 },
    /// The first line that cannot stand, which is outside the profile.
    #[error("line {line}: not a line of the profile")]
    NotALine { line: u32 },
    /// The first line that cannot stand, which is one of the profile in the wrong place.
    #[error("line {line}: misplaced")]
    Misplaced { line: u32 },
    /// A limit is passed.
    #[error("too many {which}")]
    Limit { which: Limit },
    /// There was no memory for the draft.
    #[error("out of memory")]
    OutOfMemory,
}

impl From<AllocError> for ReadRefusal {
    ghost from_gives = { λ _ refusal. refusal ≡ OutOfMemory };

    fn from(_error: AllocError) -> ReadRefusal {
        ReadRefusal::OutOfMemory
    }
}

impl<T: Drop> From<AllocFailed<T>> for ReadRefusal {
    ghost from_gives = { λ _ refusal. refusal ≡ OutOfMemory };

    fn from(_error: AllocFailed<T>) -> ReadRefusal {
        ReadRefusal::OutOfMemory
    }
}
