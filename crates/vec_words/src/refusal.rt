//! `WordsRefusal`: why words do not hold; and `Stop`, the same without the word's place, for the parts of a word.

ghost use Rattle.std.specs.Prelude.{◌≡◌, Err, Some};
ghost use Rattle.vec_words.specs.declared.refusal.Stop.TheVariants.{NoMemory};
ghost use Rattle.vec_words.specs.declared.refusal.WordsRefusal.TheVariants.{OutOfMemory};
ghost use Rattle.vec_words.specs.Answers.{Answers, Gives};

use std::alloc::{AllocError, AllocFailed};
use thiserror::Error;

/// Why words do not hold.
#[derive(Debug, Drop, Error)]
pub enum WordsRefusal {
    /// The first word that cannot stand, or where the words end too early.
    #[error("words: {place}")]
    Word {
        /// The word's place from 0, or the number of words.
        place: u32,
    },
    /// There was no memory for what the words say.
    #[error("out of memory")]
    OutOfMemory,
}

/// Why a part of a word was not read.
#[derive(Debug, Drop)]
pub(crate) enum Stop {
    /// There is no such part, or it does not fit.
    Unfit,
    /// There was no memory.
    NoMemory,
}

impl From<AllocError> for Stop {
    ghost from_gives = { λ _ stop. stop ≡ NoMemory };

    fn from(_error: AllocError) -> Stop {
        Stop::NoMemory
    }
}

impl<T: Drop> From<AllocFailed<T>> for Stop {
    ghost from_gives = { λ _ stop. stop ≡ NoMemory };

    fn from(_error: AllocFailed<T>) -> Stop {
        Stop::NoMemory
    }
}

impl From<AllocError> for WordsRefusal {
    ghost from_gives = { λ _ refusal. refusal ≡ OutOfMemory };

    fn from(_error: AllocError) -> WordsRefusal {
        WordsRefusal::OutOfMemory
    }
}

impl<T: Drop> From<AllocFailed<T>> for WordsRefusal {
    ghost from_gives = { λ _ refusal. refusal ≡ OutOfMemory };

    fn from(_error: AllocFailed<T>) -> WordsRefusal {
        WordsRefusal::OutOfMemory
    }
}

/// The refusal of the word at a place. A place that no `u32` counts is of words that no memory holds.
pub(crate) fn refused<T>(place: usize) -> Result<T, WordsRefusal>
    ensures { Answers result (Err place) }
{
    if place < 1 << 32 {
        Err(WordsRefusal::Word {
            place: place as u32,
        })
    } else {
        Err(WordsRefusal::OutOfMemory)
    }
}

/// A number of things in memory as a `u32`. More than one counts, no memory holds.
pub(crate) fn counted(n: usize) -> Result<u32, Stop>
    ensures { Gives (λ x. x) result (Some n) }
{
    if n < 1 << 32 {
        Ok(n as u32)
    } else {
        Err(Stop::NoMemory)
    }
}
