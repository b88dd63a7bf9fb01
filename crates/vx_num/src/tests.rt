// The rows of the table of meanings at their edges, with values worked out by hand after the
// Language Reference. Each helper answers `None` where a row of a table breaks a condition.

ghost use Rattle.std.specs.Prelude.{◌≤◌, ◌↔◌, IsTrue};
ghost use Rattle.vx_num.specs.Width.{IsLane};

use super::*;
use crate::width::power;
use BinOp::{Add, And, Ashr, Lshr, Mul, Or, Sdiv, Shl, Srem, Sub, Udiv, Urem, Xor};
use CastOp::{Sext, Trunc, Zext};
use Pred::{Eq, Ne, Sge, Sgt, Sle, Slt, Uge, Ugt, Ule, Ult};
use std::process::Abort;

const MAX: u64 = u64::MAX;

const TOP: u64 = 1 << 63;

const TOP_32: u64 = 1 << 31;

const MAX_32: u64 = (1 << 32) - 1;

const N: Flags = Flags {
    nuw: false,
    nsw: false,
    exact: false,
    disjoint: false,
};

const NUW: Flags = Flags { nuw: true, ..N };

const NSW: Flags = Flags { nsw: true, ..N };

const EXACT: Flags = Flags { exact: true, ..N };

const DISJOINT: Flags = Flags {
    disjoint: true,
    ..N
};

// an operation, its flags, a width, two numbers or lanes, and what is wanted
type NumberRow = (BinOp, Flags, u32, u64, u64, Lane);

type LaneRow = (BinOp, Flags, u32, Lane, Lane, Done);

type ComparisonRow = (Pred, u32, Lane, Lane, Lane);

type ConversionRow = (CastOp, bool, u32, u32, Lane, Lane);

type AddressRow = (i64, u64, u32, u64, i64);

const UNDEFINED: Done = Done::Undefined;

const POISON: Done = Done::Value(None);

const SUMS: [NumberRow; 30] = [
    (Add, N, 8, 255, 1, Some(0)),
    (Add, NUW, 8, 254, 1, Some(255)),
    (Add, NUW, 8, 255, 1, None),
    (Add, NSW, 8, 255, 1, Some(0)),
    (Add, NSW, 8, 127, 1, None),
    (Add, NSW, 8, 128, 255, None),
    (Add, N, 1, 1, 1, Some(0)),
    (Add, NSW, 1, 1, 1, None),
    (Add, N, 32, MAX_32, 2, Some(1)),
    (Add, N, 64, MAX, 1, Some(0)),
    (Add, NUW, 64, MAX, 1, None),
    (Add, NSW, 64, TOP - 1, 1, None),
    (Add, EXACT, 8, 255, 2, Some(1)),
    (Sub, N, 8, 0, 1, Some(255)),
    (Sub, NUW, 8, 0, 1, None),
    (Sub, NSW, 8, 0, 1, Some(255)),
    (Sub, NSW, 8, 128, 1, None),
    (Sub, NSW, 1, 0, 1, None),
    (Sub, NSW, 32, TOP_32, 1, None),
    (Sub, N, 64, 0, 1, Some(MAX)),
    (Mul, N, 8, 16, 16, Some(0)),
    (Mul, NUW, 8, 16, 16, None),
    (Mul, NSW, 8, 255, 255, Some(1)),
    (Mul, NUW, 8, 255, 255, None),
    (Mul, NSW, 8, 255, 128, None),
    (Mul, NSW, 1, 1, 1, None),
    (Mul, NUW, 1, 1, 1, Some(1)),
    (Mul, NSW, 32, 65536, 32768, None),
    (Mul, N, 64, MAX, MAX, Some(1)),
    (Mul, NSW, 64, TOP, MAX, None),
];

const SHIFTS: [NumberRow; 31] = [
    (Shl, N, 8, 1, 7, Some(128)),
    (Shl, N, 8, 1, 8, None),
    (Shl, NUW, 8, 64, 1, Some(128)),
    (Shl, NUW, 8, 192, 1, None),
    (Shl, NSW, 8, 192, 1, Some(128)),
    (Shl, NSW, 8, 64, 1, None),
    (Shl, N, 1, 1, 1, None),
    (Shl, N, 32, 3, 31, Some(TOP_32)),
    (Shl, NSW, 32, 3, 31, None),
    (Shl, NSW, 64, MAX, 63, Some(TOP)),
    (Shl, N, 64, 1, MAX, None),
    (Lshr, N, 8, 255, 1, Some(127)),
    (Lshr, EXACT, 8, 255, 1, None),
    (Lshr, EXACT, 8, 254, 1, Some(127)),
    (Lshr, N, 8, 1, 8, None),
    (Lshr, N, 32, TOP_32, 31, Some(1)),
    (Lshr, N, 64, TOP, 63, Some(1)),
    (Ashr, N, 8, 249, 1, Some(252)),
    (Ashr, N, 8, 64, 7, Some(0)),
    (Ashr, EXACT, 8, 249, 1, None),
    (Ashr, EXACT, 8, 248, 3, Some(255)),
    (Ashr, N, 8, 128, 8, None),
    (Ashr, N, 1, 1, 0, Some(1)),
    (Ashr, N, 32, TOP_32, 31, Some(MAX_32)),
    (Ashr, N, 64, TOP, 63, Some(MAX)),
    (And, N, 8, 12, 10, Some(8)),
    (Or, N, 8, 12, 10, Some(14)),
    (Or, DISJOINT, 8, 12, 10, None),
    (Or, DISJOINT, 8, 12, 3, Some(15)),
    (Xor, N, 8, 12, 10, Some(6)),
    (Xor, N, 64, MAX, MAX, Some(0)),
];

const QUOTIENTS: [LaneRow; 39] = [
    (Udiv, N, 8, Some(249), Some(2), Done::Value(Some(124))),
    (Udiv, EXACT, 8, Some(249), Some(2), POISON),
    (Udiv, EXACT, 8, Some(250), Some(2), Done::Value(Some(125))),
    (Udiv, N, 8, Some(128), Some(255), Done::Value(Some(0))),
    (Udiv, N, 64, Some(MAX), Some(1), Done::Value(Some(MAX))),
    (Udiv, N, 8, Some(7), Some(0), UNDEFINED),
    (Udiv, N, 8, Some(7), None, UNDEFINED),
    (Udiv, N, 8, None, Some(0), UNDEFINED),
    (Udiv, N, 8, None, Some(2), POISON),
    (Urem, N, 8, Some(249), Some(2), Done::Value(Some(1))),
    (Urem, EXACT, 8, Some(249), Some(2), Done::Value(Some(1))),
    (Urem, N, 8, Some(7), Some(0), UNDEFINED),
    (Urem, N, 8, None, Some(3), POISON),
    (Sdiv, N, 8, Some(249), Some(2), Done::Value(Some(253))),
    (Sdiv, N, 8, Some(7), Some(254), Done::Value(Some(253))),
    (Sdiv, N, 8, Some(249), Some(254), Done::Value(Some(3))),
    (Sdiv, EXACT, 8, Some(249), Some(2), POISON),
    (Sdiv, EXACT, 8, Some(250), Some(2), Done::Value(Some(253))),
    (Sdiv, N, 8, Some(129), Some(255), Done::Value(Some(127))),
    (Sdiv, N, 8, Some(128), Some(255), UNDEFINED),
    (Sdiv, N, 8, None, Some(255), UNDEFINED),
    (Sdiv, N, 8, None, Some(2), POISON),
    (Sdiv, N, 8, Some(7), Some(0), UNDEFINED),
    (Sdiv, N, 8, Some(7), None, UNDEFINED),
    (Sdiv, N, 1, Some(1), Some(1), UNDEFINED),
    (Sdiv, N, 1, Some(0), Some(1), Done::Value(Some(0))),
    (Sdiv, N, 32, Some(TOP_32), Some(MAX_32), UNDEFINED),
    (Sdiv, N, 64, Some(TOP), Some(1), Done::Value(Some(TOP))),
    (Sdiv, N, 64, Some(TOP), Some(MAX), UNDEFINED),
    (Srem, N, 8, Some(249), Some(2), Done::Value(Some(255))),
    (Srem, N, 8, Some(7), Some(254), Done::Value(Some(1))),
    (Srem, N, 8, Some(249), Some(254), Done::Value(Some(255))),
    (Srem, N, 8, Some(128), Some(255), UNDEFINED),
    (Srem, N, 8, None, Some(255), UNDEFINED),
    (Srem, N, 8, None, Some(2), POISON),
    (Srem, N, 64, Some(TOP), Some(3), Done::Value(Some(MAX - 1))),
    (Add, N, 8, None, Some(1), POISON),
    (Add, N, 8, Some(1), None, POISON),
    (And, N, 8, None, Some(0), POISON),
];

const COMPARISONS: [ComparisonRow; 26] = [
    (Eq, 8, Some(5), Some(5), Some(1)),
    (Eq, 8, Some(5), Some(6), Some(0)),
    (Ne, 8, Some(5), Some(6), Some(1)),
    (Ne, 8, Some(5), Some(5), Some(0)),
    (Ugt, 8, Some(255), Some(1), Some(1)),
    (Ugt, 8, Some(1), Some(1), Some(0)),
    (Uge, 8, Some(1), Some(1), Some(1)),
    (Uge, 8, Some(0), Some(1), Some(0)),
    (Ult, 8, Some(1), Some(255), Some(1)),
    (Ult, 8, Some(1), Some(1), Some(0)),
    (Ule, 8, Some(1), Some(1), Some(1)),
    (Ule, 8, Some(2), Some(1), Some(0)),
    (Sgt, 8, Some(255), Some(1), Some(0)),
    (Sgt, 8, Some(1), Some(255), Some(1)),
    (Sgt, 32, Some(TOP_32 - 1), Some(TOP_32), Some(1)),
    (Sge, 8, Some(1), Some(1), Some(1)),
    (Sge, 8, Some(128), Some(127), Some(0)),
    (Slt, 8, Some(128), Some(127), Some(1)),
    (Slt, 1, Some(1), Some(0), Some(1)),
    (Ult, 1, Some(1), Some(0), Some(0)),
    (Slt, 64, Some(TOP), Some(0), Some(1)),
    (Ugt, 64, Some(TOP), Some(0), Some(1)),
    (Sle, 8, Some(128), Some(128), Some(1)),
    (Sle, 8, Some(127), Some(128), Some(0)),
    (Eq, 8, None, Some(5), None),
    (Eq, 8, Some(5), None, None),
];

const CONVERSIONS: [ConversionRow; 13] = [
    (Zext, false, 8, 32, Some(255), Some(255)),
    (Zext, true, 8, 32, Some(255), None),
    (Zext, true, 8, 32, Some(127), Some(127)),
    (Zext, false, 1, 8, Some(1), Some(1)),
    (Zext, true, 1, 8, Some(1), None),
    (Zext, false, 8, 32, None, None),
    (Sext, false, 8, 32, Some(255), Some(MAX_32)),
    (Sext, false, 8, 32, Some(127), Some(127)),
    (Sext, false, 1, 64, Some(1), Some(MAX)),
    (Sext, true, 8, 16, Some(255), Some(65535)),
    (Trunc, false, 32, 8, Some(511), Some(255)),
    (Trunc, false, 64, 1, Some(2), Some(0)),
    (Trunc, true, 64, 1, Some(3), Some(1)),
];

const ADDRESSES: [AddressRow; 8] = [
    (12, 255, 8, 4, 8),
    (0, 1, 1, 8, -8),
    (-8, 2, 16, 4, 0),
    (0, 3, 32, 0, 0),
    (0, MAX, 64, 1, -1),
    (5, TOP, 64, 2, 5),
    (0, 1, 64, TOP, i64::MIN),
    (i64::MAX, 1, 8, 1, i64::MIN),
];

fn is_lane(w: u32, a: Lane) -> bool
    requires { w ≤ 64 }
    ensures { IsTrue result ↔ IsLane w a }
{
    match a {
        Some(n) => (n as u128) < power(w),
        None => true,
    }
}

fn done(op: BinOp, f: Flags, w: u32, a: Lane, b: Lane) -> Option<Done> {
    if w <= 64 && is_lane(w, a) && is_lane(w, b) {
        Some(bin(op, f, w, a, b))
    } else {
        None
    }
}

fn compared(p: Pred, w: u32, a: Lane, b: Lane) -> Option<Lane> {
    if w <= 64 && is_lane(w, a) && is_lane(w, b) {
        Some(cmp(p, w, a, b))
    } else {
        None
    }
}

fn converted(op: CastOp, nneg: bool, from: u32, to: u32, a: Lane) -> Option<Lane> {
    if from <= 64 && to <= 64 && is_lane(from, a) {
        Some(cast(op, nneg, from, to, a))
    } else {
        None
    }
}

fn advanced(base: i64, index: u64, w: u32, scale: u64) -> Option<i64> {
    if w <= 64 && (index as u128) < power(w) {
        Some(advance(base, index, w, scale))
    } else {
        None
    }
}

fn numbers_hold(rt: &impl Abort, rows: &[NumberRow]) {
    for (op, f, w, a, b, want) in rows {
        assert_eq!(rt;
            done(*op, *f, *w, Some(*a), Some(*b)),
            Some(Done::Value(*want))
        );
    }
}

fn lanes_hold(rt: &impl Abort, rows: &[LaneRow]) {
    for (op, f, w, a, b, want) in rows {
        assert_eq!(rt; done(*op, *f, *w, *a, *b), Some(*want));
    }
}

fn comparisons_hold(rt: &impl Abort, rows: &[ComparisonRow]) {
    for (p, w, a, b, want) in rows {
        assert_eq!(rt; compared(*p, *w, *a, *b), Some(*want));
    }
}

fn conversions_hold(rt: &impl Abort, rows: &[ConversionRow]) {
    for (op, nneg, from, to, a, want) in rows {
        assert_eq!(rt; converted(*op, *nneg, *from, *to, *a), Some(*want));
    }
}

fn addresses_hold(rt: &impl Abort, rows: &[AddressRow]) {
    for (base, index, w, scale, want) in rows {
        assert_eq!(rt; advanced(*base, *index, *w, *scale), Some(*want));
    }
}

#[test]
fn sums(rt: HostRuntime) {
    numbers_hold(&rt, &SUMS);
}

#[test]
fn shifts_and_bits(rt: HostRuntime) {
    numbers_hold(&rt, &SHIFTS);
}

/// Divisions, and what poison does to each kind of operation.
#[test]
fn quotients_and_poison(rt: HostRuntime) {
    lanes_hold(&rt, &QUOTIENTS);
}

#[test]
fn comparisons(rt: HostRuntime) {
    comparisons_hold(&rt, &COMPARISONS);
}

#[test]
fn conversions_and_addresses(rt: HostRuntime) {
    conversions_hold(&rt, &CONVERSIONS);
    addresses_hold(&rt, &ADDRESSES);
}
