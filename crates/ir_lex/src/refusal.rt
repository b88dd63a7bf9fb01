//! `LexRefusal`: why a line has no tokens.

ghost use Rattle.std.specs.Prelude.{◌≡◌};
ghost use Rattle.ir_lex.specs.declared.refusal.LexRefusal.TheVariants.{OutOfMemory};

use std::alloc::AllocError;
use thiserror::Error;

/// Why a line was not cut into tokens.
#[derive(Debug, Drop, Error)]
pub enum LexRefusal {
    /// The line has a lexical fault; this is its first. Both numbers are counted from 1.
    #[error("line {line} byte {byte}: lexical fault")]
    Lex {
        /// The line's number.
        line: u32,
        /// The byte of the line at which the fault stands.
        byte: u32,
    },
    /// There was no memory for the list of tokens.
    #[error("out of memory")]
    OutOfMemory,
}

impl From<AllocError> for LexRefusal {
    ghost from_gives = { λ _ refusal. refusal ≡ OutOfMemory };

    fn from(_error: AllocError) -> LexRefusal {
        LexRefusal::OutOfMemory
    }
}
