//! The top call: words, then input, then output.
//!
//! `sandvec_alone` is the entry point. Each step answers a `Fault` where it ends the command; texts are made before the first byte
//! is written.

ghost use Rattle.std.specs.Prelude.{◌≡◌, ◌+◌, ◌^◌, ◌<◌, ◌⊎◌, Option, length, map, string_bytes};
ghost use Rattle.vec_top.specs.Making as making;
ghost use Rattle.vec_top.specs.Replies as replies;
ghost use Rattle.vec_top.specs.declared.fault.Fault.{Fault};

use crate::accept::accepted;
use crate::fault::{Fault, line_of};
use crate::results::text_of;
use std::alloc::Global;
use vec_words::{Command, WordsRefusal, command};
use vx_io::{ReadRefusal, Sink, Source, WriteFault, read_all, write_all};

/// The most bytes of an input.
const BYTE_LIMIT: u64 = 16_777_216;

/// The text to write for some bytes.
fn text_for(alloc: Global, command: &Command, bytes: Vec<u8>) -> Result<Vec<u8>, Fault>
    requires { length bytes.items + 1 < 2 ^ 32 }
    ensures { making.TextFor command.now bytes.items result }
{
    let module = accepted(alloc, bytes)?;
    text_of(alloc, command, module)
}

/// The text to write, from the input.
fn make_for<S: Source>(alloc: Global, command: &Command, input: &mut S) -> Result<Vec<u8>, Fault>
    ensures { making.MakesFor command.now (S.left input.old) (S.left input.new) (S.faults input.old) (S.faults input.new) result }
{
    match read_all(alloc, input, BYTE_LIMIT) {
        Ok(bytes) => text_for(alloc, command, bytes),
        Err(ReadRefusal::ReadFault) => Err(Fault::ReadFault),
        Err(ReadRefusal::TooLong) => Err(Fault::TooLong),
        Err(ReadRefusal::OutOfMemory) => Err(Fault::NoMemory),
    }
}

/// The fault of words that do not hold.
fn fault_for(refusal: WordsRefusal) -> Fault
    ensures { result ≡ making.fault_for refusal }
{
    match refusal {
        WordsRefusal::Word { place } => Fault::Word(place),
        WordsRefusal::OutOfMemory => Fault::NoMemory,
    }
}

/// The text to write, from the words and the input.
fn make<S: Source>(alloc: Global, words: &[String], input: &mut S) -> Result<Vec<u8>, Fault>
    ensures { making.Makes (map string_bytes words.now) (S.left input.old) (S.left input.new) (S.faults input.old) (S.faults input.new) result }
{
    match command(alloc, words) {
        Ok(command) => make_for(alloc, &command, input),
        Err(refusal) => Err(fault_for(refusal)),
    }
}

/// Writes the line that tells a fault, where it has to be made; where there is no memory for it, want of memory is told instead.
fn tell_made<E: Sink>(alloc: Global, fault: Fault, err: &mut E) -> Fault
    ensures told { replies.Tells (E.taken err.old) (E.taken err.new) (E.faults err.old) (E.faults err.new) (replies.told result) }
    ensures which { (result ≡ fault) ⊎ (result ≡ Fault.NoMemory) }
{
    match line_of(alloc, &fault) {
        Ok(line) => {
            let _ = write_all(err, line.as_slice());
            fault
        }
        Err(_) => {
            let _ = write_all(err, b"sandvec: no memory\n");
            Fault::NoMemory
        }
    }
}

/// Writes the line that tells a fault, and answers the fault that was told.
fn tell<E: Sink>(alloc: Global, fault: Fault, err: &mut E) -> Fault
    ensures told { replies.Tells (E.taken err.old) (E.taken err.new) (E.faults err.old) (E.faults err.new) (replies.told result) }
    ensures which { replies.IsTold fault result }
{
    match fault {
        Fault::Refused(_) => tell_made(alloc, fault, err),
        Fault::Word(_) => tell_made(alloc, fault, err),
        Fault::ReadFault => {
            tell_fixed(b"sandvec: read fault\n", err);
            Fault::ReadFault
        }
        Fault::WriteFault => {
            tell_fixed(b"sandvec: write fault\n", err);
            Fault::WriteFault
        }
        Fault::TooLong => {
            tell_fixed(b"sandvec: limit: bytes\n", err);
            Fault::TooLong
        }
        Fault::NoMemory => {
            tell_fixed(b"sandvec: no memory\n", err);
            Fault::NoMemory
        }
    }
}

/// Writes a line that needs no memory.
fn tell_fixed<E: Sink>(line: &[u8], err: &mut E)
    ensures { replies.Tells (E.taken err.old) (E.taken err.new) (E.faults err.old) (E.faults err.new) line.now }
{
    let _ = write_all(err, line);
}

/// Does all the work, and answers the fault that ended it, if one did.
fn reply<S: Source, O: Sink, E: Sink>(
    alloc: Global,
    words: &[String],
    input: &mut S,
    out: &mut O,
    err: &mut E,
) -> Option<Fault>
    ensures { replies.Replies (map string_bytes words.now) (record {
      left = S.left input.old;
      left_after = S.left input.new;
      read_faults = S.faults input.old;
      read_faults_after = S.faults input.new;
      out = O.taken out.old;
      out_after = O.taken out.new;
      out_faults = O.faults out.old;
      out_faults_after = O.faults out.new;
      room = O.room out.old;
      err = E.taken err.old;
      err_after = E.taken err.new;
      err_faults = E.faults err.old;
      err_faults_after = E.faults err.new;
    }) result }
{
    match make(alloc, words, input) {
        Err(fault) => Some(tell(alloc, fault, err)),
        Ok(text) => match write_all(out, text.as_slice()) {
            Ok(()) => None,
            Err(WriteFault) => Some(tell(alloc, Fault::WriteFault, err)),
        },
    }
}

/// The program: words, standard input, standard output, standard error, and the exit status.
///
/// The commands are `print`, `opt` and `run --steps N CALL GLOBAL..`. Status 0: the input is a module that is accepted, and `out` took
/// its text, or that of the module that `opt` makes of it, which refines it, or the outcome of the run. 1: it is no such module, and
/// the first cause is told. 2: the words do not hold, or those of `run` do not fit the module. 3: a read failed. 4: a write failed.
/// 5: a limit is passed, of 16,777,216 bytes or of the module's. 6: want of memory. It always returns.
pub fn sandvec_alone<S: Source, O: Sink, E: Sink>(
    alloc: Global,
    words: &[String],
    input: &mut S,
    out: &mut O,
    err: &mut E,
) -> u8
    ensures { (reply : Option Fault) × (result ≡ replies.exit_status reply) × replies.Replies (map string_bytes words.now) (record {
      left = S.left input.old;
      left_after = S.left input.new;
      read_faults = S.faults input.old;
      read_faults_after = S.faults input.new;
      out = O.taken out.old;
      out_after = O.taken out.new;
      out_faults = O.faults out.old;
      out_faults_after = O.faults out.new;
      room = O.room out.old;
      err = E.taken err.old;
      err_after = E.taken err.new;
      err_faults = E.faults err.old;
      err_faults_after = E.faults err.new;
    }) reply }
{
    match reply(alloc, words, input, out, err) {
        None => 0,
        Some(fault) => fault.status(),
    }
}
