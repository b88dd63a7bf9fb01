//! `number`: a decimal by its value; `fitting` and `negative`: the number of a width that it is.
//!
//! Each answers with nothing where there is none.

ghost use Rattle.std.specs.Prelude.{◌≡◌, ◌*◌, ◌-◌, ◌^◌, ◌<◌, ◌≤◌, nat_le};
ghost use Rattle.vx_digits.specs.Optional.{when};
ghost use Rattle.vx_digits.specs.Numbers as numbers;

/// A number below 2^64 by its value, with leading zeros or without.
#[tactic(auto, unfolding(crate::specs::Numbers::number_of))]
pub fn number(text: &[u8]) -> Option<u64>
    ensures { result ≡ numbers.number_of text.now }
{
    match text {
        [] => None,
        _ => number_from(text),
    }
}

/// The number of these digits.
fn number_from(text: &[u8]) -> Option<u64>
    ensures { result ≡ numbers.number_from 0 text.now }
{
    let mut n: u64 = 0;
    let mut rest = text;
    'each: while let [digit, after @ ..] = rest {
        n = one_more(n, *digit)?;
        rest = after;
    }
    Some(n)
}

/// The number with one more digit.
#[tactic(auto, unfolding(crate::specs::Numbers::one_more))]
fn one_more(n: u64, digit: u8) -> Option<u64>
    ensures { result ≡ numbers.one_more n digit }
{
    if !digit.is_ascii_digit() {
        return None;
    }
    let more = u128::from(n) * 10 + u128::from(digit - b'0');
    if more < 1 << 64 {
        Some(more as u64)
    } else {
        None
    }
}

/// A number, where it has `w` bits, of at most 64.
#[tactic(auto, unfolding(crate::specs::Numbers::fitting))]
pub fn fitting(w: u8, n: u64) -> Option<u64>
    ensures { result ≡ numbers.fitting w n }
{
    if w > 64 {
        return None;
    }
    if u128::from(n) < 1u128 << w {
        Some(n)
    } else {
        None
    }
}

/// A number with a minus, in two's complement of `w` bits, where it is not below the least.
#[tactic(auto, unfolding(crate::specs::Numbers::negative))]
pub fn negative(w: u8, n: u64) -> Option<u64>
    ensures { result ≡ numbers.negative w n }
{
    if w > 64 {
        return None;
    }
    if n == 0 {
        return Some(0);
    }
    below(1u128 << w, n)
}

/// How far `n` is below `all`, where it is at most half of that.
fn below(all: u128, n: u64) -> Option<u64>
    requires wide { all ≤ 2 ^ 64 }
    requires some { 0 < n }
    ensures { result ≡ when (nat_le (2 * n) all) (all - n) }
{
    if 2 * u128::from(n) <= all {
        Some((all - u128::from(n)) as u64)
    } else {
        None
    }
}
