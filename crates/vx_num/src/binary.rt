// One binary operation on two lanes. Entry point: `bin`. Undefined behaviour is an answer,
// `Done::Undefined`, and poison is the lane `None`; nothing here fails.

ghost use Rattle.std.specs.Prelude.{◌≡◌, ◌^◌, ◌≤◌, ◌<◌, false};
ghost use Rattle.vx_num.specs.Width.{IsLane};
ghost use Rattle.vx_num.specs.Bin.{bin_of, is_undefined, lane_of, number_of, or_of};

use crate::flagged::disjoint;
use crate::lanes::{Done, Lane};
use crate::operations::{BinOp, Flags};
use crate::quotients::{lacks_divisor, lacks_quotient, sdiv, srem, udiv, urem};
use crate::shifts::{ashr, lshr, shl};
use crate::sums::{add, mul, sub};

fn or(f: Flags, a: u64, b: u64) -> Lane
    ensures { result ≡ or_of f a b }
{
    disjoint(f, a & b == 0, a | b)
}

/// Whether the operation is undefined at these lanes.
fn undefined(op: BinOp, w: u32, a: Lane, b: Lane) -> bool
    requires width { w ≤ 64 }
    requires right { IsLane w b }
    ensures { result ≡ is_undefined op w a b }
{
    match op {
        BinOp::Udiv => lacks_divisor(b),
        BinOp::Urem => lacks_divisor(b),
        BinOp::Sdiv => lacks_quotient(w, a, b),
        BinOp::Srem => lacks_quotient(w, a, b),
        _ => false,
    }
}

/// The operation at two numbers where it is defined.
fn number(op: BinOp, f: Flags, w: u32, a: u64, b: u64) -> Lane
    requires width { w ≤ 64 }
    requires left { a < 2 ^ w }
    requires right { b < 2 ^ w }
    requires defined { is_undefined op w (Some a) (Some b) ≡ false }
    ensures { result ≡ number_of op f w a b }
{
    match op {
        BinOp::Add => add(f, w, a, b),
        BinOp::Sub => sub(f, w, a, b),
        BinOp::Mul => mul(f, w, a, b),
        BinOp::Shl => shl(f, w, a, b),
        BinOp::Udiv => udiv(f, a, b),
        BinOp::Sdiv => sdiv(f, w, a, b),
        BinOp::Urem => urem(a, b),
        BinOp::Srem => srem(w, a, b),
        BinOp::Lshr => lshr(f, w, a, b),
        BinOp::Ashr => ashr(f, w, a, b),
        BinOp::And => Some(a & b),
        BinOp::Or => or(f, a, b),
        BinOp::Xor => Some(a ^ b),
    }
}

/// The operation at two lanes where it is defined.
fn lane(op: BinOp, f: Flags, w: u32, a: Lane, b: Lane) -> Lane
    requires width { w ≤ 64 }
    requires left { IsLane w a }
    requires right { IsLane w b }
    requires defined { is_undefined op w a b ≡ false }
    ensures { result ≡ lane_of op f w a b }
{
    match (a, b) {
        (Some(a), Some(b)) => number(op, f, w, a, b),
        _ => None,
    }
}

/// What a binary operation gives at width `w` on two lanes: undefined behaviour, poison or a number
/// below 2^w (Language Reference, "Binary Operations" and "Bitwise Binary Operations").
///
/// The width is at most 64, and a lane that is no poison is a number below 2^w. A flag that is not
/// the operation's own means nothing.
pub fn bin(op: BinOp, f: Flags, w: u32, a: Lane, b: Lane) -> Done
    requires width { w ≤ 64 }
    requires left { IsLane w a }
    requires right { IsLane w b }
    ensures { result ≡ bin_of op f w a b }
{
    if undefined(op, w, a, b) {
        Done::Undefined
    } else {
        Done::Value(lane(op, f, w, a, b))
    }
}
