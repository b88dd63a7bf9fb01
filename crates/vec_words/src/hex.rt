//! Bytes as pairs of hexadecimal digits, and `??` for poison: `bytes` reads them, `push_bytes` writes them.
//!
//! Reading stops at what is no pair. Writing fails for want of memory alone, and may leave a part of the text after.

ghost use Rattle.std.specs.Prelude.{◌≡◌, ◌++◌, ◌<◌, IfOk, IfSome, OnOk, [], length};
ghost use Rattle.vec_words.specs.Answers.{Gives};
ghost use Rattle.vec_words.specs.Hex as hex;

use crate::refusal::Stop;
use ir_model::Object;
use std::alloc::{AllocError, Global};

/// The number that a digit is.
#[tactic(auto, unfolding(crate::specs::Hex::digit_of))]
fn digit(byte: u8) -> Option<u8>
    ensures value { result ≡ hex.digit_of byte }
    ensures small { IfSome result (λ n. n < 16) }
{
    if 48 <= byte && byte <= 57 {
        return Some(byte - 48);
    }
    if 97 <= byte && byte <= 102 {
        Some(byte - 87)
    } else {
        None
    }
}

/// A byte of two digits, or poison.
#[tactic(auto, unfolding(crate::specs::Hex::byte_of))]
fn byte(first: u8, second: u8) -> Option<Option<u8>>
    ensures { result ≡ hex.byte_of first second }
{
    if first == b'?' && second == b'?' {
        return Some(None);
    }
    let high = digit(first)?;
    let low = digit(second)?;
    Some(Some(16 * high + low))
}

/// The byte of the first two digits, and what follows.
#[tactic(auto, unfolding(crate::specs::Hex::pair_of))]
fn pair(text: &[u8]) -> Result<(Option<u8>, &[u8]), Stop>
    ensures value { Gives (λ p. (p.0, p.1.now)) result (hex.pair_of text.now) }
    ensures shorter { IfOk result (λ p. length p.1.now < length text.now) }
{
    match text {
        [first, second, more @ ..] => {
            let byte = byte(*first, *second).ok_or(Stop::Unfit)?;
            Ok((byte, more))
        }
        _ => Err(Stop::Unfit),
    }
}

/// The bytes that a text says, however many.
#[tactic(auto, using(crate::proofs::Pairs::pair_first, crate::proofs::Pairs::pair_none))]
fn all_bytes(alloc: Global, text: &[u8]) -> Result<Object, Stop>
    ensures { Gives (λ x. x) result (hex.bytes_after [] text.now) }
{
    let mut found = Object::new(alloc);
    let mut rest = text;
    'each: while !rest.is_empty() {
        let (byte, more) = pair(rest)?;
        found.push(byte)?;
        rest = more;
    }
    Ok(found)
}

/// The bytes that a text says, where they are no more than an object has.
pub(crate) fn bytes(alloc: Global, text: &[u8]) -> Result<Object, Stop>
    ensures { Gives (λ x. x) result (hex.bytes_of text.now) }
{
    if text.len() > 281_474_976_710_656 {
        return Err(Stop::Unfit);
    }
    all_bytes(alloc, text)
}

/// The digit of a number below 16.
fn digit_text(n: u8) -> u8
    requires { n < 16 }
    ensures { result ≡ hex.digit_text n }
{
    if n < 10 { 48 + n } else { 87 + n }
}

/// A byte as two digits, or as poison.
fn push_byte(out: &mut Vec<u8>, byte: Option<u8>) -> Result<(), AllocError>
    ensures { OnOk result (out.new.items ≡ out.old.items ++ hex.byte_text byte) }
{
    match byte {
        None => out.extend_from_slice(b"??")?,
        Some(n) => out.extend_from_slice(&[digit_text(n / 16), digit_text(n % 16)])?,
    }
    Ok(())
}

/// Bytes one after the other.
pub(crate) fn push_bytes(out: &mut Vec<u8>, bytes: &[Option<u8>]) -> Result<(), AllocError>
    ensures { OnOk result (out.new.items ≡ out.old.items ++ hex.bytes_text bytes.now) }
{
    for byte in bytes {
        push_byte(out, *byte)?;
    }
    Ok(())
}
