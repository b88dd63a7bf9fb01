//! The top call: words, then input, then the answers.
//!
//! `inspect_alone` is the entry point. Why a text is no module that is accepted is told by `sandvec print`, which is run on it then.

ghost use Rattle.std.specs.Prelude.{◌+◌, ◌<◌, ◌^◌, length, IfOk};
ghost use Rattle.ir_types.specs.Formed.{IsFormed};

use crate::accept::accepted;
use crate::ask::answers;
use crate::listing::Listing;
use crate::refusal::Refusal;
use crate::request::Requests;
use ir_types::Module;
use std::alloc::{AllocError, Global};
use vec_top::sandvec_alone;
use vx_io::{ReadRefusal, Sink, Source, SteadySource, read_all, write_all};
use vx_view::PlainView;

/// The most bytes of an input.
const BYTE_LIMIT: u64 = 16_777_216;

/// The bytes of the input.
fn bytes_of<S: Source>(alloc: Global, input: &mut S) -> Result<Vec<u8>, Refusal>
    ensures { IfOk result (λ bytes. length bytes.items + 1 < 2 ^ 32) }
{
    match read_all(alloc, input, BYTE_LIMIT) {
        Ok(bytes) => Ok(bytes),
        Err(ReadRefusal::ReadFault) => Err(Refusal::ReadFault),
        Err(ReadRefusal::TooLong) => Err(Refusal::TooLong),
        Err(ReadRefusal::OutOfMemory) => Err(Refusal::OutOfMemory),
    }
}

/// The answers about a module.
fn answered(alloc: Global, module: &Module, asked: &Requests<'_>) -> Result<Vec<u8>, Refusal>
    requires { IsFormed module.now }
{
    let listing = Listing::of(alloc, module)?;
    let mut view = PlainView::new(alloc, module);
    answers(alloc, &mut view, &listing, asked)
}

/// The answers about the module of a text.
fn text_of(alloc: Global, bytes: &[u8], asked: &Requests<'_>) -> Result<Vec<u8>, Refusal>
    requires { length bytes.now + 1 < 2 ^ 32 }
{
    let module = accepted(alloc, bytes)?;
    answered(alloc, &module, asked)
}

/// Writes the line that tells a refusal.
fn tell<E: Sink>(alloc: Global, refusal: &Refusal, err: &mut E) -> Result<(), AllocError> {
    let line = format!(in alloc; "inspect: {refusal}\n")?;
    let _ = write_all(err, line.as_bytes());
    Ok(())
}

/// Lets `sandvec print` tell why a text is no module, and answers its status.
fn tell_cause<O: Sink, E: Sink>(
    alloc: Global,
    bytes: Vec<u8>,
    out: &mut O,
    err: &mut E,
) -> Result<u8, AllocError> {
    let mut words = Vec::new(alloc);
    words.push(String::from_str(alloc, "print")?)?;
    let mut input = SteadySource::new(bytes);
    Ok(sandvec_alone(alloc, words.as_slice(), &mut input, out, err))
}

/// Tells a refusal, and answers its status.
fn refused<E: Sink>(alloc: Global, refusal: Refusal, err: &mut E) -> u8 {
    match tell(alloc, &refusal, err) {
        Ok(()) => refusal.status(),
        Err(_) => Refusal::OutOfMemory.status(),
    }
}

/// Answers what is asked about the input.
fn answer_input<S: Source, O: Sink, E: Sink>(
    alloc: Global,
    asked: &Requests<'_>,
    input: &mut S,
    out: &mut O,
    err: &mut E,
) -> u8 {
    let bytes = match bytes_of(alloc, input) {
        Ok(bytes) => bytes,
        Err(refusal) => return refused(alloc, refusal, err),
    };
    match text_of(alloc, bytes.as_slice(), asked) {
        Ok(text) => match write_all(out, text.as_slice()) {
            Ok(()) => 0,
            Err(_) => 4,
        },
        Err(Refusal::NoModule) => match tell_cause(alloc, bytes, out, err) {
            Ok(status) => status,
            Err(_) => 6,
        },
        Err(refusal) => refused(alloc, refusal, err),
    }
}

/// The questions of some words about the module on the input, and the exit status.
///
/// Words: `[repeat N] QUESTION [/ QUESTION]..`, where a question is `form P [USER]`, `conflict A B`, `reach S..` or
/// `order A,B.. C,D..`. Status 0: all is answered on `out`. 1: the input is no module that `sandvec print` accepts. 2: the words ask
/// nothing, or name a value that is not there or not of the kind that is asked for. 3 to 6 as those of `sandvec`.
pub fn inspect_alone<S: Source, O: Sink, E: Sink>(
    alloc: Global,
    words: &[String],
    input: &mut S,
    out: &mut O,
    err: &mut E,
) -> u8 {
    match Requests::of(alloc, words) {
        Ok(Some(asked)) => answer_input(alloc, &asked, input, out, err),
        Ok(None) => refused(alloc, Refusal::NoQuestion, err),
        Err(_) => refused(alloc, Refusal::OutOfMemory, err),
    }
}
