//! What the string of a `target datalayout` line says of byte order and of pointers.
//!
//! Nothing here fails. The string is read after its opening quote; its closing quote ends its last part.

ghost use Rattle.std.specs.Prelude.{◌≡◌, ◌≤◌, length, true};
ghost use Rattle.std.specs.List.{prefix_len};
ghost use Rattle.ir_words.specs.Cursors.{left};
ghost use Rattle.ir_words.specs.Layout as layout;

use crate::cursor::Cursor;
use vx_digits::number;

/// Whether a part of the string ends here.
fn ends_part(bytes: &[u8]) -> bool
    ensures { result ≡ layout.ends_part bytes.now }
{
    match bytes {
        [] => true,
        [byte, ..] => *byte == b'-' || *byte == b'"',
    }
}

/// Whether the first part is `E`.
fn is_big(bytes: &[u8]) -> bool
    ensures { result ≡ layout.is_big bytes.now }
{
    match bytes {
        [] => false,
        [byte, rest @ ..] => *byte == b'E' && ends_part(rest),
    }
}

/// Whether a byte is of a field.
fn in_field(byte: u8) -> bool
    ensures { result ≡ layout.in_field byte }
{
    !(byte == b':' || byte == b'-' || byte == b'"')
}

/// How many bytes the first field has.
fn field_len(bytes: &[u8]) -> usize
    ensures value { result ≡ prefix_len layout.in_field bytes.now }
    ensures within { result ≤ length bytes.now }
{
    bytes.iter().take_while(|byte| in_field(**byte)).count()
}

/// Whether the first field, a size, is not 64.
fn is_other_size(bytes: &[u8]) -> bool
    ensures { result ≡ layout.is_other_size bytes.now }
{
    let field = bytes.split_at(field_len(bytes)).0;
    match number(field) {
        Some(size) => size != 64,
        None => true,
    }
}

/// Whether a colon stands here, and after it another size.
fn other_after_colon(bytes: &[u8]) -> bool
    ensures { result ≡ layout.other_after_colon bytes.now }
{
    match bytes {
        [] => false,
        [byte, rest @ ..] => *byte == b':' && is_other_size(rest),
    }
}

/// Whether a `0` stands here, in front of those.
fn other_after_zero(bytes: &[u8]) -> bool
    ensures { result ≡ layout.other_after_zero bytes.now }
{
    match bytes {
        [] => false,
        [byte, rest @ ..] => *byte == b'0' && other_after_colon(rest),
    }
}

/// Whether the first part gives pointers another size.
fn is_other(bytes: &[u8]) -> bool
    ensures { result ≡ layout.is_other bytes.now }
{
    match bytes {
        [] => false,
        [byte, rest @ ..] => *byte == b'p' && (other_after_colon(rest) || other_after_zero(rest)),
    }
}

/// Whether a part is `E`.
pub fn any_big(bytes: &[u8]) -> bool
    ensures { result ≡ layout.any_big true bytes.now }
{
    let mut starts = true;
    let mut rest = bytes;
    'each: while let [byte, after @ ..] = rest {
        if starts && is_big(rest) {
            return true;
        }
        starts = *byte == b'-';
        rest = after;
    }
    false
}

/// Whether a part gives pointers another size.
pub fn any_other(bytes: &[u8]) -> bool
    ensures { result ≡ layout.any_other true bytes.now }
{
    let mut starts = true;
    let mut rest = bytes;
    'each: while let [byte, after @ ..] = rest {
        if starts && is_other(rest) {
            return true;
        }
        starts = *byte == b'-';
        rest = after;
    }
    false
}

/// The bytes after the opening quote of the first string.
pub fn string_of<'a>(at: Cursor<'a>) -> &'a [u8]
    ensures { result.now ≡ layout.string_of (left at.entry) }
{
    let mut rest = at;
    'each: while let Some((word, after)) = rest.split_first() {
        if let [b'"', string @ ..] = word {
            return string;
        }
        rest = after;
    }
    &[]
}
