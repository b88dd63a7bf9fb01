// Shifts of a number of w bits, with `nuw` and `nsw` to the left and `exact` to the right.
// Private rows of the binary operations; nothing here fails: an amount of w or more gives poison.

ghost use Rattle.std.specs.Prelude.{◌≡◌, ◌*◌, ◌/◌, ◌^◌, ◌≤◌, ◌<◌, MatchOption};
ghost use Rattle.vx_num.specs.Shifts.{sign_copies, sign_fill, shl_of, lshr_of, ashr_of};

use crate::flagged::{exact, unwrapped};
use crate::lanes::Lane;
use crate::operations::Flags;
use crate::width::{power, top_bit};

/// The amount, where it is below the width.
fn amount_below(w: u32, k: u64) -> Option<u32>
    ensures { MatchOption result (w ≤ k) (λ n. (n ≡ k) × (n < w)) }
{
    if k < w as u64 { Some(k as u32) } else { None }
}

/// The whole number that a shift to the left makes, no bit lost.
fn shifted(a: u64, k: u32) -> u128
    requires { k ≤ 64 }
    ensures { result ≡ a * 2 ^ k }
{
    a as u128 * power(k)
}

/// k copies of the sign bit of n, as a number.
fn copies(w: u32, k: u32, n: u64) -> u128
    requires width { w ≤ 64 }
    requires amount { k ≤ 64 }
    ensures { result ≡ sign_copies w k n }
{
    if n < top_bit(w) { 0 } else { power(k) - 1 }
}

/// The sign bit of a, copied into the k highest of w bits.
fn fill(w: u32, k: u32, a: u64) -> u128
    requires width { w ≤ 64 }
    requires amount { k < w }
    ensures { result ≡ sign_fill w k a }
{
    if a < top_bit(w) {
        0
    } else {
        power(w) - power(w - k)
    }
}

fn shl_by(f: Flags, w: u32, a: u64, k: u32) -> Lane
    requires width { w ≤ 64 }
    requires left { a < 2 ^ w }
    requires amount { k < w }
    ensures { result ≡ shl_of f w a k }
{
    let whole = shifted(a, k);
    let low = (whole % power(w)) as u64;
    let lost = whole / power(w);
    unwrapped(f, lost == 0, lost == copies(w, k, low), low)
}

pub fn shl(f: Flags, w: u32, a: u64, k: u64) -> Lane
    requires width { w ≤ 64 }
    requires left { a < 2 ^ w }
    ensures { result ≡ shl_of f w a k }
{
    let amount = amount_below(w, k)?;
    shl_by(f, w, a, amount)
}

pub fn lshr(f: Flags, w: u32, a: u64, k: u64) -> Lane
    requires { w ≤ 64 }
    ensures { result ≡ lshr_of f w a k }
{
    let amount = amount_below(w, k)?;
    exact(f, a as u128 % power(amount) == 0, a >> amount)
}

fn ashr_by(f: Flags, w: u32, a: u64, k: u32) -> Lane
    requires width { w ≤ 64 }
    requires left { a < 2 ^ w }
    requires amount { k < w }
    ensures { result ≡ ashr_of f w a k }
{
    let filled = a as u128 / power(k) + fill(w, k, a);
    exact(f, a as u128 % power(k) == 0, filled as u64)
}

pub fn ashr(f: Flags, w: u32, a: u64, k: u64) -> Lane
    requires width { w ≤ 64 }
    requires left { a < 2 ^ w }
    ensures { result ≡ ashr_of f w a k }
{
    let amount = amount_below(w, k)?;
    ashr_by(f, w, a, amount)
}
