// The address rule of `getelementptr`. Entry point: `advance`. Offsets are signed 64-bit numbers
// that wrap; nothing here fails.

ghost use Rattle.std.specs.Prelude.{◌≡◌, ◌^◌, ◌≤◌, ◌<◌, ◌+ℤ◌, ◌*ℤ◌, pos};
ghost use Rattle.std.specs.Int.{w64, int_wrap};
ghost use Rattle.vx_num.specs.Advance.{advance_of};

use crate::width::signed_reading;

/// A signed index times its scale, modulo 2^64 as a signed number.
fn stride(index: i64, scale: u64) -> i64
    ensures { result ≡ int_wrap w64 (index *ℤ pos scale) }
{
    index.wrapping_mul(scale.cast_signed())
}

/// An offset moved, modulo 2^64 as a signed number.
fn moved(base: i64, by: i64) -> i64
    ensures { result ≡ int_wrap w64 (base +ℤ by) }
{
    base.wrapping_add(by)
}

/// The offset `base`, in bytes, moved by an index of width `w`, read as signed, times `scale`
/// bytes, modulo 2^64 as a signed number (Language Reference, "getelementptr").
///
/// The width is at most 64, and the index is a number below 2^w.
pub fn advance(base: i64, index: u64, w: u32, scale: u64) -> i64
    requires width { w ≤ 64 }
    requires number { index < 2 ^ w }
    ensures { result ≡ advance_of base index w scale }
{
    moved(base, stride(signed_reading(w, index), scale))
}
