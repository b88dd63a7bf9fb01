//! The graph of a function: for each block the numbers of its targets.
//!
//! `graph_of` is the entry point; it fails for want of memory alone.

ghost use Rattle.std.specs.Prelude.{◌≡◌, ◌∷◌, IfOk};
ghost use Rattle.ir_types.specs.Available.{op_targets, block_targets, graph_of};

use ir_types::{Block, Func, Numbers, Op, OutOfMemory};
use std::alloc::Global;
use vx_list::Seq;

/// For each block its targets.
pub(crate) type Graph = Seq<Numbers>;

/// The graph of a function.
pub(crate) fn graph_of(alloc: Global, func: &Func) -> Result<Graph, OutOfMemory>
    ensures { IfOk result (λ graph. graph ≡ graph_of func.now) }
{
    let mut graph = Seq::with_capacity(alloc, func.blocks.len())?;
    for block in func.blocks.as_slice() {
        graph.push(block_targets(alloc, block)?)?;
    }
    Ok(graph)
}

/// The targets of a block.
fn block_targets(alloc: Global, block: &Block) -> Result<Numbers, OutOfMemory>
    ensures { IfOk result (λ targets. targets ≡ block_targets block.now) }
{
    match block.insts.as_slice().last() {
        None => Ok(Seq::new(alloc)),
        Some(inst) => op_targets(alloc, &inst.op),
    }
}

/// The targets of an operation.
fn op_targets(alloc: Global, op: &Op) -> Result<Numbers, OutOfMemory>
    ensures { IfOk result (λ targets. targets ≡ op_targets op.now) }
{
    match op {
        Op::Br { to } => numbers(alloc, *to, &[]),
        Op::CondBr { yes, no } => numbers(alloc, *yes, &[*no]),
        Op::Switch {
            other,
            cases: _,
            to,
        } => numbers(alloc, *other, to.as_slice()),
        _ => Ok(Seq::new(alloc)),
    }
}

/// The list of one number and further ones.
fn numbers(alloc: Global, first: u32, more: &[u32]) -> Result<Numbers, OutOfMemory>
    ensures { IfOk result (λ list. list ≡ first ∷ more.now) }
{
    let mut list = Vec::with_capacity(alloc, 1)?;
    list.push(first)?;
    list.extend_from_slice(more)?;
    Ok(Seq::from_vec(list))
}
