// Sum, difference and product of two numbers of w bits, with `nuw` and `nsw`.
// Private rows of the binary operations; nothing here fails. Exact results are computed in 128
// bits, so that the tests of the flags see what is lost.

ghost use Rattle.std.specs.Prelude.{◌≡◌, ◌^◌, ◌≤◌, ◌<◌, ◌+ℤ◌, ◌-ℤ◌, ◌*ℤ◌};
ghost use Rattle.vx_num.specs.Width.{signed};
ghost use Rattle.vx_num.specs.Sums.{add_of, sub_of, mul_of};

use crate::flagged::unwrapped;
use crate::lanes::Lane;
use crate::operations::Flags;
use crate::width::{fits, power, signed_reading};

/// The exact sum of the signed readings.
fn signed_sum(w: u32, a: u64, b: u64) -> i128
    requires width { w ≤ 64 }
    requires left { a < 2 ^ w }
    requires right { b < 2 ^ w }
    ensures { result ≡ signed w a +ℤ signed w b }
{
    signed_reading(w, a) as i128 + signed_reading(w, b) as i128
}

/// The exact difference of the signed readings.
fn signed_difference(w: u32, a: u64, b: u64) -> i128
    requires width { w ≤ 64 }
    requires left { a < 2 ^ w }
    requires right { b < 2 ^ w }
    ensures { result ≡ signed w a -ℤ signed w b }
{
    signed_reading(w, a) as i128 - signed_reading(w, b) as i128
}

/// The exact product of the signed readings.
fn signed_product(w: u32, a: u64, b: u64) -> i128
    requires width { w ≤ 64 }
    requires left { a < 2 ^ w }
    requires right { b < 2 ^ w }
    ensures { result ≡ signed w a *ℤ signed w b }
{
    signed_reading(w, a) as i128 * signed_reading(w, b) as i128
}

pub fn add(f: Flags, w: u32, a: u64, b: u64) -> Lane
    requires width { w ≤ 64 }
    requires left { a < 2 ^ w }
    requires right { b < 2 ^ w }
    ensures { result ≡ add_of f w a b }
{
    let sum = a as u128 + b as u128;
    let signed = signed_sum(w, a, b);
    unwrapped(f, sum < power(w), fits(w, signed), (sum % power(w)) as u64)
}

pub fn sub(f: Flags, w: u32, a: u64, b: u64) -> Lane
    requires width { w ≤ 64 }
    requires left { a < 2 ^ w }
    requires right { b < 2 ^ w }
    ensures { result ≡ sub_of f w a b }
{
    let difference = a as u128 + power(w) - b as u128;
    let signed = signed_difference(w, a, b);
    unwrapped(f, b <= a, fits(w, signed), (difference % power(w)) as u64)
}

pub fn mul(f: Flags, w: u32, a: u64, b: u64) -> Lane
    requires width { w ≤ 64 }
    requires left { a < 2 ^ w }
    requires right { b < 2 ^ w }
    ensures { result ≡ mul_of f w a b }
{
    let product = a as u128 * b as u128;
    let signed = signed_product(w, a, b);
    unwrapped(
        f,
        product < power(w),
        fits(w, signed),
        (product % power(w)) as u64,
    )
}
