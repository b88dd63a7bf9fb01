//! `Call`: a call word as it is spelled, `NAME(ARG,ARG)`.
//!
//! `call_word` reads one. It stops where the word is none; `arg:I+D` needs an argument to the left that is `mem:`.

ghost use Rattle.std.specs.Prelude.{◌≡◌, IfOk, slice_get, []};
ghost use Rattle.vec_words.specs.Answers.{Gives};
ghost use Rattle.vec_words.specs.Calls as calls;

use crate::hex::bytes;
use crate::literal::{Lit, literal};
use crate::numbers::{offset, plain};
use crate::pieces::{closed, cut, is_callable, is_name, past, piece, same_text};
use crate::refusal::Stop;
use ir_model::Object;
use ir_types::Bytes;
use std::alloc::{AllocError, Global};
use vx_list::Seq;

/// An argument of a call word.
#[derive(Debug, Drop)]
pub(crate) enum Arg {
    /// A literal.
    One(Lit),
    /// `zeroinitializer`.
    Zero,
    /// The lanes of a vector.
    Row(Seq<Lit>),
    /// A pointer to the start of a new object of these bytes.
    Made(Object),
    /// A pointer into the object that the argument `arg` makes.
    Within { arg: u64, offset: i64 },
    /// A pointer into the object of a global.
    Global { name: Bytes, offset: i64 },
}

/// A call word.
#[derive(Debug, Drop)]
pub(crate) struct Call {
    pub(crate) name: Bytes,
    pub(crate) args: Seq<Arg>,
}

/// A copy of bytes.
pub(crate) fn copied(alloc: Global, bytes: &[u8]) -> Result<Bytes, AllocError>
    ensures { IfOk result (λ x. x ≡ bytes.now) }
{
    Bytes::from_slice(alloc, bytes)
}

/// A copy of a plain name.
pub(crate) fn name(alloc: Global, text: &[u8]) -> Result<Bytes, Stop>
    ensures { Gives (λ x. x) result (calls.name_of text.now) }
{
    if is_name(text) {
        Ok(copied(alloc, text)?)
    } else {
        Err(Stop::Unfit)
    }
}

/// A copy of a name that a call word may begin with.
fn callable(alloc: Global, text: &[u8]) -> Result<Bytes, Stop>
    ensures { Gives (λ x. x) result (calls.callable_of text.now) }
{
    if is_callable(text) {
        Ok(copied(alloc, text)?)
    } else {
        Err(Stop::Unfit)
    }
}

/// Literals with commas between.
fn lits(alloc: Global, text: &[u8]) -> Result<Seq<Lit>, Stop>
    ensures { Gives (λ x. x) result (calls.lits_within text.now [] text.now) }
{
    let mut found = Seq::new(alloc);
    let mut rest = text;
    let mut bound = text;
    'each: while let [_, fewer @ ..] = bound {
        bound = fewer;
        let (front, more) = piece(rest);
        found.push(literal(front).ok_or(Stop::Unfit)?)?;
        let Some(more) = more else {
            return Ok(found);
        };
        rest = more;
    }
    Err(Stop::Unfit)
}

/// The lanes of a vector after their `<`.
#[tactic(auto, unfolding(crate::specs::Calls::row_arg))]
fn row(alloc: Global, text: &[u8]) -> Result<Arg, Stop>
    ensures { Gives (λ x. x) result (calls.row_arg text.now) }
{
    let inner = closed(b'>', text).ok_or(Stop::Unfit)?;
    Ok(Arg::Row(lits(alloc, inner)?))
}

/// A new object, by its bytes.
#[tactic(auto, unfolding(crate::specs::Calls::made_arg))]
fn made(alloc: Global, text: &[u8]) -> Result<Arg, Stop>
    ensures { Gives (λ x. x) result (calls.made_arg text.now) }
{
    Ok(Arg::Made(bytes(alloc, text)?))
}

/// Whether the argument of a number makes an object.
fn makes(before: &[Arg], at: u64) -> bool
    ensures { result ≡ calls.makes (slice_get before.now at) }
{
    match before.get(at as usize) {
        Some(Arg::Made(_)) => true,
        _ => false,
    }
}

/// An offset in the object of an argument to the left.
#[tactic(auto, unfolding(crate::specs::Calls::within_arg))]
fn within(before: &[Arg], text: &[u8]) -> Result<Arg, Stop>
    ensures { Gives (λ x. x) result (calls.within_arg before.now text.now) }
{
    let (arg, offset_text) = cut(b'+', text).ok_or(Stop::Unfit)?;
    let arg = plain(arg).ok_or(Stop::Unfit)?;
    let offset = offset(offset_text).ok_or(Stop::Unfit)?;
    if makes(before, arg) {
        Ok(Arg::Within { arg, offset })
    } else {
        Err(Stop::Unfit)
    }
}

/// An offset in the object of a global.
#[tactic(auto, unfolding(crate::specs::Calls::global_arg))]
fn global(alloc: Global, text: &[u8]) -> Result<Arg, Stop>
    ensures { Gives (λ x. x) result (calls.global_arg text.now) }
{
    let (name_text, offset_text) = cut(b'+', text).ok_or(Stop::Unfit)?;
    let name = name(alloc, name_text)?;
    let offset = offset(offset_text).ok_or(Stop::Unfit)?;
    Ok(Arg::Global { name, offset })
}

/// An argument that is `zeroinitializer` or a literal.
fn plain_arg(text: &[u8]) -> Result<Arg, Stop>
    ensures { Gives (λ x. x) result (calls.plain_arg text.now) }
{
    if same_text(text, b"zeroinitializer") {
        return Ok(Arg::Zero);
    }
    Ok(Arg::One(literal(text).ok_or(Stop::Unfit)?))
}

/// An argument, by the arguments to its left.
#[tactic(auto, unfolding(crate::specs::Calls::arg_of))]
fn argument(alloc: Global, before: &[Arg], text: &[u8]) -> Result<Arg, Stop>
    ensures { Gives (λ x. x) result (calls.arg_of before.now text.now) }
{
    if let Some(hex) = past(b"mem:", text) {
        return made(alloc, hex);
    }
    if let Some(rest) = past(b"arg:", text) {
        return within(before, rest);
    }
    if let Some(rest) = past(b"@", text) {
        return global(alloc, rest);
    }
    if let Some(rest) = past(b"<", text) {
        return row(alloc, rest);
    }
    plain_arg(text)
}

/// Arguments with commas between.
fn args_within(alloc: Global, text: &[u8]) -> Result<Seq<Arg>, Stop>
    ensures { Gives (λ x. x) result (calls.args_within text.now [] text.now) }
{
    let mut found = Seq::new(alloc);
    let mut rest = text;
    let mut bound = text;
    'each: while let [_, fewer @ ..] = bound {
        bound = fewer;
        let (front, more) = piece(rest);
        found.push(argument(alloc, found.as_slice(), front)?)?;
        let Some(more) = more else {
            return Ok(found);
        };
        rest = more;
    }
    Err(Stop::Unfit)
}

/// What stands between the parentheses.
fn args(alloc: Global, text: &[u8]) -> Result<Seq<Arg>, Stop>
    ensures { Gives (λ x. x) result (calls.args_of text.now) }
{
    match text {
        [] => Ok(Seq::new(alloc)),
        _ => args_within(alloc, text),
    }
}

/// A call word.
#[tactic(auto, unfolding(crate::specs::Calls::call_of))]
pub(crate) fn call_word(alloc: Global, word: &[u8]) -> Result<Call, Stop>
    ensures { Gives (λ x. x) result (calls.call_of word.now) }
{
    let (name_text, rest) = cut(b'(', word).ok_or(Stop::Unfit)?;
    let name = callable(alloc, name_text)?;
    let inner = closed(b')', rest).ok_or(Stop::Unfit)?;
    let args = args(alloc, inner)?;
    Ok(Call { name, args })
}
