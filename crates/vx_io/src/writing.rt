//! `write_all`: all of some bytes into a sink.
//!
//! It takes no memory. A fault says that the sink failed: it has then taken a front of the bytes that lacks one or more.

ghost use Rattle.std.specs.Prelude.{◌≡◌, ◌≤◌, length, IfSome, IsOk, OnOk, OnErr};
ghost use Rattle.std.specs.Io.KnownBytes.{Appends};
ghost use Rattle.vx_io.specs.Count.{Rose};
ghost use Rattle.vx_io.specs.Bytes.{AppendsFront};
ghost use Rattle.vx_io.specs.Room.{UsesRoom};

use crate::{Failed, Sink};
use thiserror::Error;

/// That a write failed before all bytes were taken.
#[derive(Clone, Copy, Debug, PartialEq, Eq, Error)]
#[error("write fault")]
pub struct WriteFault;

/// Writes all bytes. A fault comes only where the count of the sink rose, and then a front of the bytes was taken that lacks
/// one or more.
pub fn write_all<O: Sink>(sink: &mut O, bytes: &[u8]) -> Result<(), WriteFault>
    ensures whole { OnOk result (Appends (O.taken sink.old) (O.taken sink.new) bytes.now) }
    ensures kept { OnOk result (O.faults sink.new ≡ O.faults sink.old) }
    ensures front { OnErr result (AppendsFront (O.taken sink.old) (O.taken sink.new) bytes.now) }
    ensures fault { OnErr result (Rose (O.faults sink.old) (O.faults sink.new)) }
    ensures never_falls { O.faults sink.old ≤ O.faults sink.new }

    // Where the sink is sure of room for all bytes, they are taken.
    ensures fits { IfSome (O.room sink.old) (λ k. length bytes.now ≤ k → IsOk result) }
    ensures uses { OnOk result (UsesRoom (O.room sink.old) (O.room sink.new) (length bytes.now)) }
{
    let mut done = 0;
    while done < bytes.len() {
        match sink.write(&bytes[done..]) {
            Ok(count) => done += count,
            Err(Failed) => return Err(WriteFault),
        }
    }
    Ok(())
}
