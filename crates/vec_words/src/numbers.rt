//! Decimal numbers of words: `plain` without leading zeros, a bound on blocks, an offset.
//!
//! Each answers with nothing where the text is no such number.

ghost use Rattle.std.specs.Prelude.{◌≡◌};
ghost use Rattle.vec_words.specs.Numbers as numbers;

use vx_digits::number;

/// Whether no zero stands before another digit.
fn is_plain(text: &[u8]) -> bool
    ensures { result ≡ numbers.is_plain text.now }
{
    match text {
        [first, _, ..] => *first != b'0',
        _ => true,
    }
}

/// A number below 2^64 without a leading zero.
#[tactic(auto, unfolding(crate::specs::Numbers::plain_of))]
pub(crate) fn plain(text: &[u8]) -> Option<u64>
    ensures { result ≡ numbers.plain_of text.now }
{
    if is_plain(text) { number(text) } else { None }
}

/// A bound on blocks.
#[tactic(auto, unfolding(crate::specs::Numbers::steps_of))]
pub(crate) fn steps(text: &[u8]) -> Option<u64>
    ensures { result ≡ numbers.steps_of text.now }
{
    let n = plain(text)?;
    if n <= 1_000_000 { Some(n) } else { None }
}

/// An offset in bytes.
#[tactic(auto, unfolding(crate::specs::Numbers::offset_of))]
pub(crate) fn offset(text: &[u8]) -> Option<i64>
    ensures { result ≡ numbers.offset_of text.now }
{
    let n = plain(text)?;
    if n < 1 << 63 { Some(n as i64) } else { None }
}
