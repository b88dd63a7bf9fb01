// One comparison of two lanes. Entry point: `cmp`. Poison is the lane `None`; nothing here fails.

ghost use Rattle.std.specs.Prelude.{◌≡◌, ◌^◌, ◌≤◌, ◌<◌};
ghost use Rattle.vx_num.specs.Width.{IsLane};
ghost use Rattle.vx_num.specs.Cmp.{cmp_of, holds};

use crate::lanes::Lane;
use crate::operations::Pred;
use crate::width::signed_reading;

/// Whether a comparison of two numbers holds.
fn compares(p: Pred, w: u32, a: u64, b: u64) -> bool
    requires width { w ≤ 64 }
    requires left { a < 2 ^ w }
    requires right { b < 2 ^ w }
    ensures { result ≡ holds p w a b }
{
    match p {
        Pred::Eq => a == b,
        Pred::Ne => a != b,
        Pred::Ugt => b < a,
        Pred::Uge => b <= a,
        Pred::Ult => a < b,
        Pred::Ule => a <= b,
        Pred::Sgt => signed_reading(w, b) < signed_reading(w, a),
        Pred::Sge => signed_reading(w, b) <= signed_reading(w, a),
        Pred::Slt => signed_reading(w, a) < signed_reading(w, b),
        Pred::Sle => signed_reading(w, a) <= signed_reading(w, b),
    }
}

/// What `icmp` gives on two lanes of width `w`: a lane of width 1, which is 1 where the comparison
/// holds, 0 where it does not, and poison where an operand is (Language Reference, "icmp").
///
/// The width is at most 64, and a lane that is no poison is a number below 2^w.
pub fn cmp(p: Pred, w: u32, a: Lane, b: Lane) -> Lane
    requires width { w ≤ 64 }
    requires left { IsLane w a }
    requires right { IsLane w b }
    ensures { result ≡ cmp_of p w a b }
{
    match (a, b) {
        (Some(a), Some(b)) => Some(if compares(p, w, a, b) { 1 } else { 0 }),
        _ => None,
    }
}
