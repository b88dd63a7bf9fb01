//! `LineRefusal`: why a line has no form; and `Stop`, the same without the line's number, for the parts of a line.

ghost use Rattle.std.specs.Prelude.{◌≡◌};
ghost use Rattle.ir_draft.specs.declared.refusal.Stop.TheVariants.{OutOfMemory};

use std::alloc::{AllocError, AllocFailed};
use thiserror::Error;

/// Why a line was not given a form.
#[derive(Debug, Drop, Error)]
pub enum LineRefusal {
    /// The line spells no form.
    #[error("line {line}: not a line of the profile")]
    NotALine {
        /// The line's number from 1.
        line: u32,
    },
    /// There was no memory for what the line says.
    #[error("out of memory")]
    OutOfMemory,
}

/// Why a part of a line was not read.
#[derive(Debug, Drop)]
pub enum Stop {
    /// The words are no such part.
    NotALine,
    /// There was no memory.
    OutOfMemory,
}

impl From<AllocError> for Stop {
    ghost from_gives = { λ _ stop. stop ≡ OutOfMemory };

    fn from(_error: AllocError) -> Stop {
        Stop::OutOfMemory
    }
}

impl<T: Drop> From<AllocFailed<T>> for Stop {
    ghost from_gives = { λ _ stop. stop ≡ OutOfMemory };

    fn from(_error: AllocFailed<T>) -> Stop {
        Stop::OutOfMemory
    }
}
