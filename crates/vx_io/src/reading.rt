//! `read_all`: all bytes of a source, up to a limit.
//!
//! A refusal says whether the source failed, had more bytes than the limit, or found no memory for them. What was read stays
//! read, so the source is then left with a rest of what it had.

ghost use Rattle.std.specs.Prelude.{◌≡◌, ◌+◌, ◌<◌, ◌≤◌, ◌++◌, length, IfOk, OnOk, IfSome, IsErrOf};
ghost use Rattle.std.specs.Io.KnownBytes.{IsAtEnd};
ghost use Rattle.vx_io.specs.Count.{Rose};
ghost use Rattle.vx_io.specs.Bytes.{ConsumesSome};
ghost use Rattle.vx_io.specs.declared.reading.ReadRefusal.TheVariants.{OutOfMemory};

use crate::{Failed, Source};
use std::alloc::{AllocError, Global};
use thiserror::Error;

/// Why a source was not read to its end.
#[derive(Clone, Copy, Debug, PartialEq, Eq, Error)]
pub enum ReadRefusal {
    /// A read failed.
    #[error("read fault")]
    ReadFault,
    /// More bytes came than the limit.
    #[error("more bytes than the limit")]
    TooLong,
    /// There was no memory for the bytes.
    #[error("out of memory")]
    OutOfMemory,
}

impl From<AllocError> for ReadRefusal {
    ghost from_gives = { λ _ e. e ≡ OutOfMemory };

    fn from(_error: AllocError) -> ReadRefusal {
        ReadRefusal::OutOfMemory
    }
}

// How many bytes one call of a source is asked for.
const PIECE: usize = 65536;

/// Reads a source to its end, and gives all bytes that it had left, which are `limit` bytes or fewer.
///
/// `ReadFault` comes only where the count of the source rose, `TooLong` exactly where more than `limit` bytes came.
pub fn read_all<S: Source>(
    alloc: Global,
    source: &mut S,
    limit: u64,
) -> Result<Vec<u8>, ReadRefusal>
    ensures found { IfOk result (λ v. IfSome (S.left source.old) (λ bytes. v.items ≡ bytes)) }
    ensures short { IfOk result (λ v. length v.items ≤ limit) }
    ensures end { OnOk result (IsAtEnd (S.left source.new)) }

    // What was read stays read.
    ensures read { ConsumesSome (S.left source.old) (S.left source.new) }

    ensures fault { IsErrOf result ReadRefusal.ReadFault → Rose (S.faults source.old) (S.faults source.new) }
    ensures kept { (IsErrOf result ReadRefusal.ReadFault → ⊥) → S.faults source.new ≡ S.faults source.old }
    ensures never_falls { S.faults source.old ≤ S.faults source.new }
    ensures fits { OnOk result (IfSome (S.left source.old) (λ bytes. length bytes ≤ limit)) }
    ensures long { IsErrOf result ReadRefusal.TooLong → IfSome (S.left source.old) (λ bytes. limit < length bytes) }
{
    let mut bytes = Vec::new(alloc);
    let mut piece = [0u8; PIECE];
    loop {
        match source.read(&mut piece) {
            Ok(0) => return Ok(bytes),
            Ok(count) => append(&mut bytes, &piece[..count], limit)?,
            Err(Failed) => return Err(ReadRefusal::ReadFault),
        }
    }
}

// Appends a piece, if no more than `limit` bytes stand then.
fn append(bytes: &mut Vec<u8>, piece: &[u8], limit: u64) -> Result<(), ReadRefusal>
    requires { length bytes.old.items ≤ limit }
    ensures ok { OnOk result (bytes.new.items ≡ bytes.old.items ++ piece.now) }
    ensures short { OnOk result (length bytes.new.items ≤ limit) }
    ensures not_fault { IsErrOf result ReadRefusal.ReadFault → ⊥ }
    ensures long { IsErrOf result ReadRefusal.TooLong → limit < length bytes.old.items + length piece.now }
{
    if piece.len() as u64 > limit - bytes.len() as u64 {
        return Err(ReadRefusal::TooLong);
    }
    bytes.extend_from_slice(piece)?;
    Ok(())
}
