// Numbers of w bits, w up to 64: powers, signed readings, and signed numbers cut to w bits.
// Private helpers of the operations; each is total where its width is at most 64. A number is kept
// unsigned; what may pass 64 bits is computed in 128.

ghost use Rattle.std.specs.Prelude.{◌≡◌, ◌≢◌, ◌^◌, ◌≤◌, ◌<◌, pos};
ghost use Rattle.vx_num.specs.Width.{sign_bit, signed, low_bits, fits_signed};

/// 2^w.
pub fn power(w: u32) -> u128
    requires { w ≤ 64 }
    ensures value { result ≡ 2 ^ w }
    ensures bound { result ≤ 2 ^ 64 }
{
    1u128 << w
}

/// What the sign bit counts, 2^(w-1).
pub fn top_bit(w: u32) -> u64
    requires { w ≤ 64 }
    ensures { result ≡ sign_bit w }
{
    1u64 << w.saturating_sub(1)
}

/// The signed reading of a number of w bits.
pub fn signed_reading(w: u32, n: u64) -> i64
    requires width { w ≤ 64 }
    requires number { n < 2 ^ w }
    ensures value { result ≡ signed w n }
    ensures nonzero { n ≢ 0 → result ≢ pos 0 }
{
    if n < top_bit(w) {
        n as i64
    } else {
        (n as i128 - power(w) as i128) as i64
    }
}

/// The w bits of a signed number.
pub fn cut(w: u32, z: i128) -> u64
    requires { w ≤ 64 }
    ensures { result ≡ low_bits w z }
{
    if z >= 0 {
        (z as u128 % power(w)) as u64
    } else {
        (power(w) - 1 - ((-1 - z) as u128 % power(w))) as u64
    }
}

/// Whether a signed number fits w bits.
pub fn fits(w: u32, z: i128) -> bool
    requires { w ≤ 64 }
    ensures { result ≡ fits_signed w z }
{
    let half = top_bit(w) as i128;
    -half <= z && z < half
}
