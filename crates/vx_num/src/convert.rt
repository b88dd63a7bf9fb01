// One conversion of a lane between widths. Entry point: `cast`. Poison is the lane `None`; nothing
// here fails.

ghost use Rattle.std.specs.Prelude.{◌≡◌, ◌^◌, ◌≤◌, ◌<◌};
ghost use Rattle.vx_num.specs.Width.{IsLane};
ghost use Rattle.vx_num.specs.Cast.{cast_of, zext_of, sext_of, trunc_of};

use crate::flagged::kept;
use crate::lanes::Lane;
use crate::operations::CastOp;
use crate::width::{cut, power, signed_reading, top_bit};

fn zext(nneg: bool, from: u32, n: u64) -> Lane
    requires { from ≤ 64 }
    ensures { result ≡ zext_of nneg from n }
{
    if kept(nneg, n < top_bit(from)) {
        Some(n)
    } else {
        None
    }
}

fn sext(from: u32, to: u32, n: u64) -> Lane
    requires source { from ≤ 64 }
    requires target { to ≤ 64 }
    requires number { n < 2 ^ from }
    ensures { result ≡ sext_of from to n }
{
    Some(cut(to, signed_reading(from, n) as i128))
}

fn trunc(to: u32, n: u64) -> Lane
    requires { to ≤ 64 }
    ensures { result ≡ trunc_of to n }
{
    Some((n as u128 % power(to)) as u64)
}

/// What a conversion gives on a lane of width `from`: a lane of width `to`
/// (Language Reference, "Conversion Operations").
///
/// Both widths are at most 64, and a lane that is no poison is a number below 2^from. `nneg` is of
/// `zext` and means nothing for the others.
pub fn cast(op: CastOp, nneg: bool, from: u32, to: u32, a: Lane) -> Lane
    requires source { from ≤ 64 }
    requires target { to ≤ 64 }
    requires number { IsLane from a }
    ensures { result ≡ cast_of op nneg from to a }
{
    let n = a?;
    match op {
        CastOp::Zext => zext(nneg, from, n),
        CastOp::Sext => sext(from, to, n),
        CastOp::Trunc => trunc(to, n),
    }
}
