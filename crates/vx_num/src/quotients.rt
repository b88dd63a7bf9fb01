// Quotients and remainders of numbers of w bits, with `exact`, and where a division is undefined.
// Private rows of the binary operations; nothing here fails. The rows are called only where the
// division is defined, which `lacks_divisor` and `lacks_quotient` tell.

ghost use Rattle.std.specs.Prelude.{◌≡◌, ◌≢◌, ◌^◌, ◌≤◌, ◌<◌, pos, int_div, int_rem};
ghost use Rattle.vx_num.specs.Width.{IsLane};
ghost use Rattle.vx_num.specs.Quotients.{udiv_of, urem_of, sdiv_of, srem_of, no_divisor, is_minus_one, may_be_least, no_quotient};

use crate::flagged::exact;
use crate::lanes::Lane;
use crate::operations::Flags;
use crate::width::{cut, signed_reading, top_bit};

pub fn udiv(f: Flags, a: u64, b: u64) -> Lane
    requires { b ≢ 0 }
    ensures { result ≡ udiv_of f a b }
{
    exact(f, a % b == 0, a / b)
}

pub fn urem(a: u64, b: u64) -> Lane
    requires { b ≢ 0 }
    ensures { result ≡ urem_of a b }
{
    Some(a % b)
}

/// The quotient, truncated toward zero.
fn quotient(x: i64, y: i64) -> i128
    requires { y ≢ pos 0 }
    ensures { result ≡ int_div x y }
{
    x as i128 / y as i128
}

/// The remainder, with the sign of the dividend.
fn remainder(x: i64, y: i64) -> i128
    requires { y ≢ pos 0 }
    ensures { result ≡ int_rem x y }
{
    x as i128 % y as i128
}

pub fn sdiv(f: Flags, w: u32, a: u64, b: u64) -> Lane
    requires width { w ≤ 64 }
    requires left { a < 2 ^ w }
    requires right { b < 2 ^ w }
    requires divisor { b ≢ 0 }
    ensures { result ≡ sdiv_of f w a b }
{
    let dividend = signed_reading(w, a);
    let divisor = signed_reading(w, b);
    exact(
        f,
        remainder(dividend, divisor) == 0,
        cut(w, quotient(dividend, divisor)),
    )
}

pub fn srem(w: u32, a: u64, b: u64) -> Lane
    requires width { w ≤ 64 }
    requires left { a < 2 ^ w }
    requires right { b < 2 ^ w }
    requires divisor { b ≢ 0 }
    ensures { result ≡ srem_of w a b }
{
    Some(cut(w, remainder(signed_reading(w, a), signed_reading(w, b))))
}

/// Whether the divisor is poison or 0.
pub fn lacks_divisor(b: Lane) -> bool
    ensures { result ≡ no_divisor b }
{
    matches!(b, None | Some(0))
}

/// Whether the divisor is -1.
fn negates(w: u32, b: Lane) -> bool
    requires width { w ≤ 64 }
    requires number { IsLane w b }
    ensures { result ≡ is_minus_one w b }
{
    match b {
        Some(n) => signed_reading(w, n) == -1,
        None => false,
    }
}

/// Whether the dividend is poison or the least signed value.
fn least_or_poison(w: u32, a: Lane) -> bool
    requires { w ≤ 64 }
    ensures { result ≡ may_be_least w a }
{
    match a {
        Some(n) => n == top_bit(w),
        None => true,
    }
}

/// Whether a signed division is undefined.
pub fn lacks_quotient(w: u32, a: Lane, b: Lane) -> bool
    requires width { w ≤ 64 }
    requires right { IsLane w b }
    ensures { result ≡ no_quotient w a b }
{
    lacks_divisor(b) || (negates(w, b) && least_or_poison(w, a))
}
