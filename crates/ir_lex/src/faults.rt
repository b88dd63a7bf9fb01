//! The first lexical fault of a line.
//!
//! The one entry point is `first_fault`. Only a quote outside strings and comments opens a string, so the walk knows which part
//! of the line it is in; it stops at the few bytes that can be a fault or change that part, and passes over all others. It takes no
//! memory. Each string is looked through once more, for its closing quote.

ghost use Rattle.std.specs.Prelude.{◌≡◌, ◌+◌, ◌<◌, ◌≤◌, ◌^◌, length, take};
ghost use Rattle.std.specs.List.{position_or_len};
ghost use Rattle.ir_lex.specs.Bytes.{is_notable};
ghost use Rattle.ir_lex.specs.Lanes.{first_set};
ghost use Rattle.ir_lex.specs.Faults.{enter, opens, has_quote, begins_fault};
ghost use Rattle.ir_lex.specs.Scan.{fault_of};

use crate::bytes::{is_control, is_notable};
use std::simd::prelude::*;

/// The part of a line in which a byte stands.
#[derive(Debug, Clone, Copy)]
pub(crate) enum Part {
    /// Outside strings and comments.
    Plain,
    /// After the opening quote of a string.
    Quoted,
    /// After the semicolon of a comment.
    Comment,
}

impl Part {
    /// The part of the line after a byte that stands in this one.
    fn enter(self, byte: u8) -> Part
        ensures { result ≡ enter self byte }
    {
        match self {
            Part::Plain if byte == b'"' => Part::Quoted,
            Part::Plain if byte == b';' => Part::Comment,
            Part::Quoted if byte == b'"' => Part::Plain,
            part => part,
        }
    }
}

/// Whether a byte opens a string.
fn opens(part: Part, byte: u8) -> bool
    ensures { result ≡ opens part byte }
{
    match part {
        Part::Plain => byte == b'"',
        Part::Quoted | Part::Comment => false,
    }
}

/// Whether there is a quote among the bytes.
fn has_quote(bytes: &[u8]) -> bool
    ensures { result ≡ has_quote bytes.now }
{
    bytes.iter().any(|byte| *byte == b'"')
}

/// Whether the first of the bytes is a fault.
fn begins_fault(part: Part, bytes: &[u8]) -> bool
    ensures { result ≡ begins_fault part bytes.now }
{
    match bytes {
        [] => false,
        [byte, after @ ..] => is_control(*byte) || opens(part, *byte) && !has_quote(after),
    }
}

/// How many bytes are looked at in one step.
const STEP: usize = 16;

/// The place of the first bit that is set, or the size of a step.
fn first_set(mask: u64) -> usize
    ensures { result ≡ first_set mask }
{
    if mask == 0 {
        STEP
    } else {
        mask.trailing_zeros() as usize
    }
}

/// How many of the first bytes, as many as a step has, stand before a notable one.
fn calm_in_step(bytes: &[u8]) -> usize
    requires { 16 ≤ length bytes.now }
    ensures { result ≡ position_or_len is_notable (take 16 bytes.now) }
{
    let row = u8x16::from_slice(bytes);
    let control = row.simd_lt(u8x16::splat(b' ')) & row.simd_ne(u8x16::splat(b'\t'));
    let delete = row.simd_eq(u8x16::splat(127));
    let opening = row.simd_eq(u8x16::splat(b'"')) | row.simd_eq(u8x16::splat(b';'));
    first_set((control | delete | opening).to_bitmask())
}

/// How many bytes stand before the first notable one, byte by byte.
fn calm_by_bytes(bytes: &[u8]) -> usize
    ensures value { result ≡ position_or_len is_notable bytes.now }
    ensures within { result ≤ length bytes.now }
{
    bytes.iter().take_while(|byte| !is_notable(**byte)).count()
}

/// How many bytes at the front are no fault and open, close or begin nothing.
fn calm_len(bytes: &[u8]) -> usize
    ensures value { result ≡ position_or_len is_notable bytes.now }
    ensures within { result ≤ length bytes.now }
{
    let mut count = 0;
    let mut rest = bytes;
    'steps: while rest.len() >= STEP {
        let calm = calm_in_step(rest);
        if calm < STEP {
            return count + calm;
        }
        count += STEP;
        rest = rest.split_at(STEP).1;
    }
    count + calm_by_bytes(rest)
}

/// The place from 0 of the first fault of a line, if it has one.
pub fn first_fault(line: &[u8]) -> Option<u32>
    requires { length line.now + 1 < 2 ^ 32 }
    ensures { result ≡ fault_of line.now }
{
    let mut part = Part::Plain;
    let mut place: u32 = 0;
    let mut rest = line;
    'each: loop {
        let calm = calm_len(rest);
        rest = rest.split_at(calm).1;
        place += calm as u32;
        if begins_fault(part, rest) {
            return Some(place);
        }
        let [byte, after @ ..] = rest else {
            return None;
        };
        part = part.enter(*byte);
        place += 1;
        rest = after;
    }
}
