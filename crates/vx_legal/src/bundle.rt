//! What the rules ask of lanes by themselves and of the nodes that stand already.
//!
//! Nothing here fails.

ghost use Rattle.std.specs.Prelude.{◌≡◌};
ghost use Rattle.std.specs.List.{list_all, list_any};
ghost use Rattle.vx_serial.specs.Legal.{is_literal, same_value, same_lanes, is_widened, reused, is_taken};

use ir_types::Opd;
use vx_serial::{How, Node};

/// Whether an operand is a literal.
fn is_literal(opd: &Opd) -> bool
    ensures { result ≡ is_literal opd.now }
{
    match opd {
        Opd::Lit(_) => true,
        _ => false,
    }
}

/// Whether all lanes are literals.
pub fn are_literals(lanes: &[Opd]) -> bool
    ensures { result ≡ list_all is_literal lanes.now }
{
    let mut left = lanes;
    while let [first, more @ ..] = left {
        if !is_literal(first) {
            return false;
        }
        left = more;
    }
    true
}

/// Whether both operands are one value.
fn same_value(a: &Opd, b: &Opd) -> bool
    ensures { result ≡ same_value a.now b.now }
{
    match (a, b) {
        (Opd::Val(a), Opd::Val(b)) => a.same(*b),
        _ => false,
    }
}

/// Whether these are the same values in the same order.
pub fn same_lanes(a: &[Opd], b: &[Opd]) -> bool
    ensures { result ≡ same_lanes a.now b.now }
{
    let mut ours = a;
    let mut theirs = b;
    while let [first, more @ ..] = ours {
        match theirs {
            [other, rest @ ..] => {
                if !same_value(first, other) {
                    return false;
                }
                theirs = rest;
            }
            [] => return false,
        }
        ours = more;
    }
    theirs.is_empty()
}

/// Whether a node is one vector instruction.
fn is_widened(how: How) -> bool
    ensures { result ≡ is_widened how }
{
    match how {
        How::Widen => true,
        _ => false,
    }
}

/// Whether one of these is the same value.
fn has_value(lanes: &[Opd], lane: &Opd) -> bool
    ensures { result ≡ list_any (same_value lane.now) lanes.now }
{
    let mut left = lanes;
    while let [first, more @ ..] = left {
        if same_value(lane, first) {
            return true;
        }
        left = more;
    }
    false
}

/// Whether a widened node has the lane.
pub fn is_taken(tree: &[Node], lane: &Opd) -> bool
    ensures { result ≡ is_taken tree.now lane.now }
{
    let mut left = tree;
    while let [first, more @ ..] = left {
        if is_widened(first.how) && has_value(first.lanes.as_slice(), lane) {
            return true;
        }
        left = more;
    }
    false
}

/// The number of the first widened node with these lanes.
pub fn reused(tree: &[Node], lanes: &[Opd]) -> Option<usize>
    ensures { result ≡ reused 0 lanes.now tree.now }
{
    let mut left = tree;
    let mut number = 0;
    while let [first, more @ ..] = left {
        if is_widened(first.how) && same_lanes(first.lanes.as_slice(), lanes) {
            return Some(number);
        }
        left = more;
        number += 1;
    }
    None
}
