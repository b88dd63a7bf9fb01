//! The numbers of what has no name.
//!
//! One counter in a function numbers unnamed parameters, blocks and results. Each function gives the counter after one of them, or
//! refuses the line as misplaced where a written number is not the next.

ghost use Rattle.std.specs.Prelude.{◌≡◌, ◌+◌, IfOk};
ghost use Rattle.ir_read.specs.Answers.{Gives};
ghost use Rattle.ir_read.specs.Numbers as numbers;

use crate::ReadRefusal;
use ir_types::{Bytes, Param};
use std::alloc::AllocError;
use vx_digits::number;

/// One more. That there is such a number is a matter of memory: it counts what is kept.
pub(crate) fn one_more(count: u32) -> Result<u32, AllocError>
    ensures { IfOk result (λ more. more ≡ count + 1) }
{
    count.checked_add(1).ok_or(AllocError)
}

/// Whether a name is a number.
fn is_unnamed(name: &[u8]) -> bool
    ensures { result ≡ numbers.is_unnamed name.now }
{
    match name {
        [] => false,
        [first, ..] => first.is_ascii_digit(),
    }
}

/// Whether a number is the next.
fn is_next(next: u32, number: Option<u64>) -> bool
    ensures { result ≡ numbers.is_next next number }
{
    match number {
        Some(n) => n == u64::from(next),
        None => false,
    }
}

/// The counter after a written name: a number must be the next, and any other name takes none.
#[tactic(auto, unfolding(crate::specs::Numbers::after_name))]
pub(crate) fn after_name(line: u32, next: u32, name: &[u8]) -> Result<u32, ReadRefusal>
    ensures { Gives (λ after. after) result (numbers.after_name line next name.now) }
{
    if !is_unnamed(name) {
        return Ok(next);
    }
    if is_next(next, number(name)) {
        Ok(one_more(next)?)
    } else {
        Err(ReadRefusal::Misplaced { line })
    }
}

/// The counter after a result, if there is one.
pub(crate) fn after_result(
    line: u32,
    next: u32,
    written: &Option<Bytes>,
) -> Result<u32, ReadRefusal>
    ensures { Gives (λ after. after) result (numbers.after_result line next written.now) }
{
    match written {
        Some(name) => after_name(line, next, name.as_slice()),
        None => Ok(next),
    }
}

/// The counter after a parameter; one without a written name takes the next number.
fn after_param(line: u32, next: u32, name: &Option<Bytes>) -> Result<u32, ReadRefusal>
    ensures { Gives (λ after. after) result (numbers.after_param line next name.now) }
{
    match name {
        Some(name) => after_name(line, next, name.as_slice()),
        None => Ok(one_more(next)?),
    }
}

/// The counter after the parameters of a function.
pub(crate) fn after_params(line: u32, params: &[Param]) -> Result<u32, ReadRefusal>
    ensures { Gives (λ after. after) result (numbers.after_params line 0 params.now) }
{
    let mut next = 0;
    let mut rest = params;
    'each: while let [param, after @ ..] = rest {
        next = after_param(line, next, &param.name)?;
        rest = after;
    }
    Ok(next)
}
