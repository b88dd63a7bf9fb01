//! Single lanes: their low bits, and each operation on them at a width of at most 64.
//!
//! Nothing here fails. Undefined behaviour is `None`; poison is a lane that is none.

ghost use Rattle.std.specs.Prelude.{◌≡◌, ◌≤◌};
ghost use Rattle.vx_num.specs.Width.{IsLane};
ghost use Rattle.ir_model.specs.Operations.{low, bin_lane, cmp_lane, cast_lane, chosen_by};

use vx_num::{BinOp, CastOp, Done, Flags, Lane, Pred, bin, cast, cmp};

/// The low bits of a lane.
pub(crate) fn low(w: u8, lane: Lane) -> Lane
    requires { w ≤ 64 }
    ensures value { result ≡ low w lane }
    ensures lane { IsLane w result }
{
    let n = lane?;
    if w == 64 {
        Some(n)
    } else {
        Some(n % (1u64 << w))
    }
}

/// A binary operation.
pub(crate) fn bin_lane(op: BinOp, flags: Flags, w: u8, a: Lane, b: Lane) -> Option<Lane>
    requires { w ≤ 64 }
    ensures { result ≡ bin_lane op flags w a b }
{
    match bin(op, flags, u32::from(w), low(w, a), low(w, b)) {
        Done::Value(lane) => Some(lane),
        Done::Undefined => None,
    }
}

/// A comparison.
pub(crate) fn cmp_lane(pred: Pred, w: u8, a: Lane, b: Lane) -> Option<Lane>
    requires { w ≤ 64 }
    ensures { result ≡ cmp_lane pred w a b }
{
    Some(cmp(pred, u32::from(w), low(w, a), low(w, b)))
}

/// A conversion.
pub(crate) fn cast_lane(op: CastOp, nneg: bool, from: u8, to: u8, a: Lane) -> Lane
    requires source { from ≤ 64 }
    requires target { to ≤ 64 }
    ensures { result ≡ cast_lane op nneg from to a }
{
    cast(op, nneg, u32::from(from), u32::from(to), low(from, a))
}

/// What a condition chooses of two lanes or two pointers, of which either may be poison.
pub(crate) fn chosen_by<T: Copy>(c: Lane, a: Option<T>, b: Option<T>) -> Option<T>
    ensures { result ≡ chosen_by c a b }
{
    let n = c?;
    if n == 0 { b } else { a }
}
