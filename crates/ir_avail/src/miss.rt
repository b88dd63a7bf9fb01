//! Whether one use is available, and if not, the least walk along which it is not.
//!
//! `least_miss` is the entry point; it fails for want of memory alone. It bars the blocks that define the value, and looks for
//! the shortest way from the entry to the block in which walks to the use end.

ghost use Rattle.std.specs.Prelude.{◌≡◌, ℕ, IfOk, MatchOption, map, take};
ghost use Rattle.ir_types.specs.Available.{is_param, defines, insts_at, graph_of, IsAvailableAt, IsLeastMiss};
ghost use Rattle.ir_avail.specs.Avoids.{IsLeast, AreDistances};

use crate::distances::{distance_of, distances};
use crate::graph::Graph;
use crate::least::least;
use ir_types::{Func, Id, Inst, Numbers};
use std::alloc::{AllocError, Global};

/// The least walk on which the definition of a value does not stand before a use: the walk ends in block `end`, of which
/// `before` instructions stand before the use. None where there is no such walk.
pub(crate) fn least_miss(
    alloc: Global,
    func: &Func,
    graph: &Graph,
    value: Id,
    before: usize,
    end: usize,
) -> Result<Option<Numbers>, AllocError>
    requires { graph.now ≡ graph_of func.now }
    ensures { IfOk result (λ miss. MatchOption miss (IsAvailableAt func.now value before end)
        (IsLeastMiss func.now value before end)) }
{
    if is_param(func, value) {
        return Ok(None);
    }
    if is_defined_before(func, value, before, end) {
        return Ok(None);
    }
    let barred = defining_blocks(alloc, func, value)?;
    let distances = distances(alloc, graph, &barred, end)?;
    match distance_of(&distances, 0) {
        None => Ok(None),
        Some(len) => Ok(Some(least(alloc, graph, &distances, len)?)),
    }
}

/// Whether the value is a parameter.
fn is_param(func: &Func, value: Id) -> bool
    ensures { result ≡ is_param value func.now }
{
    func.params
        .as_slice()
        .iter()
        .any(|param| param.id.same(value))
}

/// Whether one of the instructions defines the value.
fn defines(insts: &[Inst], value: Id) -> bool
    ensures { result ≡ defines value insts.now }
{
    insts.iter().any(|inst| inst.id.same(value))
}

/// The instructions of a block, none where there is no such block.
pub(crate) fn insts_at(func: &Func, number: usize) -> &[Inst]
    ensures { result.now ≡ insts_at func.now number }
{
    match func.blocks.get(number) {
        Some(block) => block.insts.as_slice(),
        None => &[],
    }
}

/// Whether one of the first instructions of a block defines the value.
fn is_defined_before(func: &Func, value: Id, before: usize, number: usize) -> bool
    ensures { result ≡ defines value (take before (insts_at func.now number)) }
{
    let insts = insts_at(func, number);
    if before < insts.len() {
        defines(&insts[..before], value)
    } else {
        defines(insts, value)
    }
}

/// For each block whether it defines the value.
fn defining_blocks(alloc: Global, func: &Func, value: Id) -> Result<Vec<bool>, AllocError>
    ensures { IfOk result (λ bars. bars.items ≡ map (λ b. defines value b.insts) func.now.blocks) }
{
    let mut bars = Vec::with_capacity(alloc, func.blocks.len())?;
    for block in func.blocks.as_slice() {
        bars.push(defines(block.insts.as_slice(), value))?;
    }
    Ok(bars)
}
