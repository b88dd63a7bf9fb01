//! Faults: what ends a command before its work is done, each with its status and the line that tells it.
//!
//! `line_of` makes that line; want of memory is its only failure.

ghost use Rattle.std.specs.Prelude.{◌≡◌, ◌++◌, codes, IfOk, OnOk};
ghost use Rattle.std.specs.Fmt.{decimal};
ghost use Rattle.vec_top.specs.Replies as replies;
ghost use Rattle.vec_top.specs.declared.fault.Fault.TheVariants.{NoMemory};

use crate::cause::{Cause, push_decimal, push_said as push_cause};
use std::alloc::{AllocError, AllocFailed, Global};
use thiserror::Error;

/// What ended a command.
#[derive(Debug, Drop, Error)]
pub enum Fault {
    /// The input is no module that the program accepts.
    #[error("{0}")]
    Refused(Cause),
    /// The place, from 0, of the first word that cannot stand, or the number of words where one is missing.
    #[error("words: {0}")]
    Word(u32),
    /// A read failed.
    #[error("read fault")]
    ReadFault,
    /// A write of the result failed.
    #[error("write fault")]
    WriteFault,
    /// The input has too many bytes.
    #[error("limit: bytes")]
    TooLong,
    /// There was no memory.
    #[error("no memory")]
    NoMemory,
}

impl From<AllocError> for Fault {
    ghost from_gives = { λ _ fault. fault ≡ NoMemory };

    fn from(_error: AllocError) -> Fault {
        Fault::NoMemory
    }
}

impl<T: Drop> From<AllocFailed<T>> for Fault {
    ghost from_gives = { λ _ fault. fault ≡ NoMemory };

    fn from(_error: AllocFailed<T>) -> Fault {
        Fault::NoMemory
    }
}

impl Fault {
    /// The exit status.
    pub(crate) fn status(&self) -> u8
        ensures { result ≡ replies.status_of self.now }
    {
        match self {
            Fault::Refused(cause) => cause.status(),
            Fault::Word(_) => 2,
            Fault::ReadFault => 3,
            Fault::WriteFault => 4,
            Fault::TooLong => 5,
            Fault::NoMemory => 6,
        }
    }
}

fn push_word(out: &mut Vec<u8>, place: u32) -> Result<(), AllocError>
    ensures { OnOk result (out.new.items ≡ out.old.items ++ (codes "words: " ++ decimal place)) }
{
    out.extend_from_slice(b"words: ")?;
    push_decimal(out, place)?;
    Ok(())
}

fn push_said(out: &mut Vec<u8>, fault: &Fault) -> Result<(), AllocError>
    ensures { OnOk result (out.new.items ≡ out.old.items ++ replies.said_of fault.now) }
{
    match fault {
        Fault::Refused(cause) => push_cause(out, cause),
        Fault::Word(place) => push_word(out, *place),
        Fault::ReadFault => out.extend_from_slice(b"read fault"),
        Fault::WriteFault => out.extend_from_slice(b"write fault"),
        Fault::TooLong => out.extend_from_slice(b"limit: bytes"),
        Fault::NoMemory => out.extend_from_slice(b"no memory"),
    }
}

/// The line that tells a fault.
pub(crate) fn line_of(alloc: Global, fault: &Fault) -> Result<Vec<u8>, AllocError>
    ensures { IfOk result (λ line. line.items ≡ replies.told fault.now) }
{
    let mut line = Vec::new(alloc);
    line.extend_from_slice(b"sandvec: ")?;
    push_said(&mut line, fault)?;
    line.extend_from_slice(b"\n")?;
    Ok(line)
}
