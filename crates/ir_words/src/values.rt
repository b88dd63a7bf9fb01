//! What one word says by itself: a width, a number, a lane, a name.
//!
//! Each reader stops where the word says no such thing.

ghost use Rattle.std.specs.Prelude.{◌≡◌, ◌*◌, ◌-◌, ◌^◌, ◌<◌, ◌≤◌, IfOk, nat_le};
ghost use Rattle.std.specs.Char.{is_ascii_digit};
ghost use Rattle.std.specs.List.{list_all};
ghost use Rattle.vx_digits.specs.Numbers as numbers;
ghost use Rattle.ir_lex.specs.Bytes.{begins_name};
ghost use Rattle.ir_words.specs.Values.{is_some};
ghost use Rattle.ir_words.specs.Words.{Gives};
ghost use Rattle.ir_words.specs.Values as values;

use crate::cursor::same_word;
use ir_draft::Stop;
use ir_types::Bytes;
use std::alloc::{AllocError, Global};
use vx_digits::{fitting, negative, number};
use vx_num::Lane;

/// The bits of an integer type.
#[tactic(auto, unfolding(crate::specs::Values::width_of))]
pub fn width_of(word: &[u8]) -> Result<u8, Stop>
    ensures { Gives (λ x. x) result (values.width_of word.now) }
{
    match word {
        b"i1" => Ok(1),
        b"i8" => Ok(8),
        b"i16" => Ok(16),
        b"i32" => Ok(32),
        b"i64" => Ok(64),
        _ => Err(Stop::NotALine),
    }
}

/// A number by its value, below 2^64.
pub fn number_of(word: &[u8]) -> Result<u64, Stop>
    ensures { Gives (λ x. x) result (numbers.number_of word.now) }
{
    number(word).ok_or(Stop::NotALine)
}

/// An align: a power of two from 1 to 2^32.
#[tactic(auto, unfolding(crate::specs::Values::align_of))]
pub fn align_of(word: &[u8]) -> Result<u64, Stop>
    ensures { Gives (λ x. x) result (values.align_of word.now) }
{
    let n = number_of(word)?;
    if n.is_power_of_two() && n <= 1 << 32 {
        Ok(n)
    } else {
        Err(Stop::NotALine)
    }
}

/// A signed decimal of `w` bits.
#[tactic(auto, unfolding(crate::specs::Values::decimal_of))]
fn decimal_of(w: u8, word: &[u8]) -> Result<u64, Stop>
    ensures { Gives (λ x. x) result (values.decimal_of w word.now) }
{
    match word {
        [] => Err(Stop::NotALine),
        [b'-', digits @ ..] => negative(w, number_of(digits)?).ok_or(Stop::NotALine),
        _ => fitting(w, number_of(word)?).ok_or(Stop::NotALine),
    }
}

/// A number of `w` bits; of one bit also a truth value.
#[tactic(auto, unfolding(crate::specs::Values::bits_number))]
pub fn bits_number(w: u8, word: &[u8]) -> Result<u64, Stop>
    ensures { Gives (λ x. x) result (values.bits_number w word.now) }
{
    if same_word(word, b"true") && w == 1 {
        return Ok(1);
    }
    if same_word(word, b"false") && w == 1 {
        return Ok(0);
    }
    decimal_of(w, word)
}

/// A lane of `w` bits.
#[tactic(auto, unfolding(crate::specs::Values::lane_of))]
pub fn lane_of(w: u8, word: &[u8]) -> Result<Lane, Stop>
    ensures { Gives (λ x. x) result (values.lane_of w word.now) }
{
    if same_word(word, b"poison") {
        return Ok(None);
    }
    let n = bits_number(w, word)?;
    Ok(Some(n))
}

/// A copy of bytes.
pub fn copied(alloc: Global, bytes: &[u8]) -> Result<Bytes, AllocError>
    ensures { IfOk result (λ x. x ≡ bytes.now) }
{
    Bytes::from_slice(alloc, bytes)
}

/// Digits without their leading zeros.
fn plain_number(digits: &[u8]) -> &[u8]
    ensures { result.now ≡ values.plain_number digits.now }
{
    let mut rest = digits;
    'each: while let [b'0', after @ ..] = rest {
        if after.is_empty() {
            return rest;
        }
        rest = after;
    }
    rest
}

/// The name after `%`.
#[tactic(auto, unfolding(crate::specs::Values::named))]
fn named(alloc: Global, name: &[u8]) -> Result<Bytes, Stop>
    ensures { Gives (λ x. x) result (values.named name.now) }
{
    match name {
        [] | [b'"', ..] => Err(Stop::NotALine),
        [first, ..] if first.is_ascii_digit() => Ok(copied(alloc, plain_number(name))?),
        _ => Ok(copied(alloc, name)?),
    }
}

/// The name of a local.
#[tactic(auto, unfolding(crate::specs::Values::local_of))]
pub fn local_of(alloc: Global, word: &[u8]) -> Result<Bytes, Stop>
    ensures { Gives (λ x. x) result (values.local_of word.now) }
{
    match word {
        [b'%', name @ ..] => named(alloc, name),
        _ => Err(Stop::NotALine),
    }
}

/// A name that is not quoted.
fn unquoted(alloc: Global, name: &[u8]) -> Result<Bytes, Stop>
    ensures { Gives (λ x. x) result (values.unquoted name.now) }
{
    match name {
        [] | [b'"', ..] => Err(Stop::NotALine),
        _ => Ok(copied(alloc, name)?),
    }
}

/// The plain name of a symbol.
#[tactic(auto, unfolding(crate::specs::Values::symbol_of))]
pub fn symbol_of(alloc: Global, word: &[u8]) -> Result<Bytes, Stop>
    ensures { Gives (λ x. x) result (values.symbol_of word.now) }
{
    match word {
        [b'@', name @ ..] => unquoted(alloc, name),
        _ => Err(Stop::NotALine),
    }
}

/// Whether a word is a plain symbol.
#[tactic(auto, unfolding(crate::specs::Values::symbol_of))]
pub fn is_plain(word: &[u8]) -> bool
    ensures { result ≡ is_some (values.symbol_of word.now) }
{
    match word {
        [b'@', first, ..] => *first != b'"',
        _ => false,
    }
}

/// Whether a byte may begin a plain name.
#[tactic(auto, unfolding(ir_lex::specs::Bytes::begins_name))]
pub fn begins_name(byte: u8) -> bool
    ensures { result ≡ begins_name byte }
{
    byte.is_ascii_alphabetic() || byte == b'-' || byte == b'$' || byte == b'.' || byte == b'_'
}

/// Whether all bytes are digits.
pub fn all_digits(bytes: &[u8]) -> bool
    ensures { result ≡ list_all is_ascii_digit bytes.now }
{
    bytes.iter().all(|byte| byte.is_ascii_digit())
}

/// The name of a label.
#[tactic(auto, unfolding(crate::specs::Values::label_of))]
pub fn label_of(alloc: Global, word: &[u8]) -> Result<Bytes, Stop>
    ensures { Gives (λ x. x) result (values.label_of word.now) }
{
    match word {
        [] => Err(Stop::NotALine),
        [first, ..] if begins_name(*first) => Ok(copied(alloc, word)?),
        _ if all_digits(word) => Ok(copied(alloc, plain_number(word))?),
        _ => Err(Stop::NotALine),
    }
}
