//! `push_decimal` and `push_lane`: a number, and a lane of so many bits, put after what is written already.
//!
//! Want of memory is the only failure, and may leave a part of the text after.

ghost use Rattle.std.specs.Prelude.{◌≡◌, ◌-◌, ◌^◌, ◌≤◌, ◌++◌, OnOk, codes, nat_eq, nat_lt, if◌then◌else◌, false};
ghost use Rattle.std.specs.Fmt.{decimal};
ghost use Rattle.vx_digits.specs.Lanes as lanes;

use itoa::Buffer;
use std::alloc::AllocError;
use vx_num::Lane;

/// A number without a sign.
pub fn push_decimal(out: &mut Vec<u8>, n: u64) -> Result<(), AllocError>
    ensures { OnOk result (out.new.items ≡ out.old.items ++ decimal n) }
{
    let mut buffer = Buffer::new();
    out.extend_from_slice(buffer.format(n).as_bytes())?;
    Ok(())
}

/// A number of `w` bits, read as signed.
fn push_number(out: &mut Vec<u8>, w: u8, n: u64) -> Result<(), AllocError>
    ensures { OnOk result (out.new.items ≡ out.old.items ++ lanes.number_text w n) }
{
    if w == 1 {
        return push_truth(out, n);
    }
    if is_small(w, n) {
        return push_decimal(out, n);
    }
    push_negative(out, w, n)
}

fn push_truth(out: &mut Vec<u8>, n: u64) -> Result<(), AllocError>
    ensures { OnOk result (out.new.items ≡ out.old.items ++ (if nat_eq n 0 then codes "false" else codes "true")) }
{
    if n == 0 {
        out.extend_from_slice(b"false")?;
    } else {
        out.extend_from_slice(b"true")?;
    }
    Ok(())
}

/// Whether a number of `w` bits has no sign bit.
fn is_small(w: u8, n: u64) -> bool
    ensures value { result ≡ nat_lt n (2 ^ (w - 1)) }
    ensures narrow { result ≡ false → w ≤ 64 }
{
    if w > 64 {
        return true;
    }
    (n as u128) < 1u128 << w.saturating_sub(1)
}

fn push_negative(out: &mut Vec<u8>, w: u8, n: u64) -> Result<(), AllocError>
    requires { w ≤ 64 }
    ensures { OnOk result (out.new.items ≡ out.old.items ++ (codes "-" ++ decimal (2 ^ w - n))) }
{
    let size = (1u128 << w).saturating_sub(n as u128);
    let mut buffer = Buffer::new();
    out.extend_from_slice(b"-")?;
    out.extend_from_slice(buffer.format(size).as_bytes())?;
    Ok(())
}

/// A lane of `w` bits: a signed decimal, of one bit a truth value, or `poison` (Language Reference, "Simple Constants").
pub fn push_lane(out: &mut Vec<u8>, w: u8, lane: Lane) -> Result<(), AllocError>
    ensures { OnOk result (out.new.items ≡ out.old.items ++ lanes.lane_text w lane) }
{
    match lane {
        None => out.extend_from_slice(b"poison")?,
        Some(n) => push_number(out, w, n)?,
    }
    Ok(())
}
