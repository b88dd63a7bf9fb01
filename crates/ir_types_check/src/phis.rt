//! Whether a phi fits the edges to its block.
//!
//! `phi_fits` is the entry point; want of memory is the only failure.

ghost use Rattle.std.specs.Prelude.{◌≡◌, true, List, [], IsTrue, IfOk, OnOk};
ghost use Rattle.ir_draft.specs.declared.written.Arg.{Arg};
ghost use Rattle.ir_types_check.specs.Scope.{meaning};
ghost use Rattle.ir_types_check.specs.Typed as typed;

use crate::edges::{Sources, numbers_at};
use crate::locals::Meaning;
use crate::scope::{Scope, copied};
use ir_line::{Arg, Stmt, Written};
use ir_types::{Bytes, Literal};
use std::alloc::{AllocError, Global};
use vx_list::TryClone;
use vx_num::Lane;

/// Whether each block stands as often in the one list as in the other.
fn same_blocks(alloc: Global, left: &[u32], right: &[u32]) -> Result<bool, AllocError>
    ensures { IfOk result (λ same. same ≡ typed.same_blocks left.now right.now) }
{
    let mut left = Vec::from_slice(alloc, left)?;
    left.sort()?;
    let mut right = Vec::from_slice(alloc, right)?;
    right.sort()?;
    Ok(left.as_slice() == right.as_slice())
}

/// The same, where mostly both stand in one order and nothing need be sorted.
fn are_same(alloc: Global, left: &[u32], right: &[u32]) -> Result<bool, AllocError>
    ensures { IfOk result (λ same. same ≡ typed.same_blocks left.now right.now) }
{
    if left == right {
        return Ok(true);
    }
    same_blocks(alloc, left, right)
}

/// Whether two lanes are one.
fn same_lane(left: Lane, right: Lane) -> bool
    ensures { result ≡ typed.same_lane left right }
{
    match (left, right) {
        (None, None) => true,
        (Some(a), Some(b)) => a == b,
        _ => false,
    }
}

/// Whether two lists of lanes are one.
fn same_lanes(left: &[Lane], right: &[Lane]) -> bool
    ensures { result ≡ typed.same_lanes left.now right.now }
{
    let mut left = left;
    let mut right = right;
    'each: while let [a, more @ ..] = left {
        let [b, others @ ..] = right else {
            return false;
        };
        if !same_lane(*a, *b) {
            return false;
        }
        left = more;
        right = others;
    }
    right.is_empty()
}

/// Whether two literals are one.
fn same_literal(left: &Literal, right: &Literal) -> bool
    ensures { result ≡ typed.same_literal left.now right.now }
{
    left.ty.same(right.ty)
        && same_lanes(
            left.lanes.as_lanes().as_slice(),
            right.lanes.as_lanes().as_slice(),
        )
}

/// Whether two operands are one.
fn same_opd(left: &Written, right: &Written) -> bool
    ensures { result ≡ typed.same_opd left.now right.now }
{
    match (left, right) {
        (Written::Local(a), Written::Local(b)) => a.as_slice() == b.as_slice(),
        (Written::Symbol(a), Written::Symbol(b)) => a.as_slice() == b.as_slice(),
        (Written::Lit(a), Written::Lit(b)) => same_literal(a, b),
        _ => false,
    }
}

/// An equal operand.
fn copy_of(alloc: Global, written: &Written) -> Result<Written, AllocError>
    ensures { IfOk result (λ copy. copy ≡ written.now) }
{
    match written {
        Written::Local(name) => Ok(Written::Local(copied(alloc, name.as_slice())?)),
        Written::Symbol(name) => Ok(Written::Symbol(copied(alloc, name.as_slice())?)),
        Written::Lit(literal) => Ok(Written::Lit(literal.try_clone(alloc)?)),
    }
}

/// Whether an operand is the one that its block brought before, if it did. Else it is kept.
fn brings<'a>(
    brought: &mut Scope<'a, Written>,
    alloc: Global,
    label: &'a [u8],
    opd: &Written,
) -> Result<bool, AllocError>
    ensures fits { IfOk result (λ fits. fits ≡ typed.is_brought (meaning label.now brought.old) opd.now) }
    ensures kept { OnOk result (brought.new ≡ typed.with_brought brought.old label.now opd.now (meaning label.now brought.old)) }
{
    match brought.get(label) {
        Some(before) => Ok(same_opd(before, opd)),
        None => {
            let copy = copy_of(alloc, opd)?;
            brought.add(label, copy)?;
            Ok(true)
        }
    }
}

/// Whether these are at most two labels, and none stands twice: then none brings two operands.
#[tactic(auto, using(crate::proofs::Apart::one_agrees, crate::proofs::Apart::two_agree))]
fn are_apart(labels: &[Bytes]) -> bool
    ensures { IsTrue result → (args : List Arg) → typed.agree [] labels.now args ≡ true }
{
    let [one, others @ ..] = labels else {
        return true;
    };
    let [other, more @ ..] = others else {
        return true;
    };
    more.is_empty() && other.as_slice() != one.as_slice()
}

/// Whether each label brings one operand.
fn agree(alloc: Global, labels: &[Bytes], args: &[Arg]) -> Result<bool, AllocError>
    ensures { IfOk result (λ fits. fits ≡ typed.agree [] labels.now args.now) }
{
    // Most blocks with a phi have two predecessors, and then nothing need be kept.
    if are_apart(labels) {
        return Ok(true);
    }
    let mut brought = Scope::new(alloc);
    let mut labels = labels;
    let mut args = args;
    'each: while let [label, others @ ..] = labels {
        let [arg, more @ ..] = args else {
            return Ok(true);
        };
        if !brings(&mut brought, alloc, label.as_slice(), &arg.opd)? {
            return Ok(false);
        }
        labels = others;
        args = more;
    }
    Ok(true)
}

/// The blocks with an edge to a block.
fn sources_at(sources: &Sources, to: u32) -> &[u32]
    ensures { result.now ≡ typed.sources_at sources.now to }
{
    match sources.get(to as usize) {
        Some(row) => row.as_slice(),
        None => &[],
    }
}

/// Whether a phi of the block fits the edges to it.
#[inline(never)]
pub(crate) fn phi_fits(
    alloc: Global,
    locals: &Scope<Meaning>,
    sources: &Sources,
    here: u32,
    stmt: &Stmt,
    places: &[u32],
) -> Result<bool, AllocError>
    ensures { IfOk result (λ fits. fits ≡ typed.phi_fits locals.now sources.now here stmt.now places.now) }
{
    if here == 0 {
        return Ok(false);
    }
    let incoming = numbers_at(alloc, locals, &stmt.labels, places)?;
    if !are_same(alloc, incoming.as_slice(), sources_at(sources, here))? {
        return Ok(false);
    }
    agree(alloc, stmt.labels.as_slice(), stmt.args.as_slice())
}
