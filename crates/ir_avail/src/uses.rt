//! The uses of a function in order of text: the first that is not available is named.
//!
//! `check_func` is the entry point. A refusal names the use and its least walk, or says that there was no memory.

ghost use Rattle.std.specs.Prelude.{◌≡◌, ℕ, IfOk, MatchOption, slice_get};
ghost use Rattle.ir_types.specs.Available.{walk_end, before_use, insts_at, graph_of, IsAvailableAt, IsLeastMiss, IsAvailableOpd, OpdMisses, IsAvailableInst, InstMisses, IsAvailableBlock, BlockMisses, IsAvailableFunc, FuncMisses};
ghost use Rattle.ir_avail.specs.Verdict.{Judges};
ghost use Rattle.ir_avail.specs.Known.{AreFacts};

use crate::graph::{Graph, graph_of};
use crate::known::{Asked, Known};
use crate::miss::{insts_at, least_miss};
use crate::refusal::AvailRefusal;
use ir_types::{Block, Func, Id, Inst, Numbers, Op, Opd};
use std::alloc::{AllocError, Global};

/// A function with its graph and what is known of its values.
#[derive(Drop)]
struct Facts {
    graph: Graph,
    known: Known,
}

/// Whether each use of a function is available.
pub(crate) fn check_func(alloc: Global, func: &Func) -> Result<(), AvailRefusal>
    ensures { Judges (IsAvailableFunc func.now) (λ user slot walk. FuncMisses user slot walk func.now) result }
{
    let graph = graph_of(alloc, func)?;
    let known = Known::new(alloc, func, &graph)?;
    let facts = Facts { graph, known };
    check_blocks(alloc, func, &facts)
}

/// The same of all its blocks.
fn check_blocks(alloc: Global, func: &Func, facts: &Facts) -> Result<(), AvailRefusal>
    requires { AreFacts func.now facts.now }
    ensures { Judges (IsAvailableFunc func.now) (λ user slot walk. FuncMisses user slot walk func.now) result }
{
    for (number, block) in func.blocks.as_slice().iter().enumerate() {
        check_block(alloc, func, facts, number, block)?;
    }
    Ok(())
}

/// The same of the block of a number.
fn check_block(
    alloc: Global,
    func: &Func,
    facts: &Facts,
    number: usize,
    block: &Block,
) -> Result<(), AvailRefusal>
    requires { AreFacts func.now facts.now }
    ensures { Judges (IsAvailableBlock func.now number block.now)
        (λ user slot walk. BlockMisses user slot walk func.now number block.now) result }
{
    for (position, inst) in block.insts.as_slice().iter().enumerate() {
        let site = Site {
            block: number,
            position,
        };
        check_inst(alloc, func, facts, site, inst)?;
    }
    Ok(())
}

/// Where an instruction stands.
#[derive(Clone, Copy)]
struct Site {
    /// The number of its block.
    block: usize,
    /// Counts the block's instructions from 0.
    position: usize,
}

/// Where an operand stands.
#[derive(Clone, Copy)]
struct Slot {
    /// Where its instruction does.
    site: Site,
    /// Counts the instruction's operands from 0.
    slot: usize,
}

/// The same of the instruction at a site.
fn check_inst(
    alloc: Global,
    func: &Func,
    facts: &Facts,
    site: Site,
    inst: &Inst,
) -> Result<(), AvailRefusal>
    requires { AreFacts func.now facts.now }
    ensures { Judges (IsAvailableInst func.now site.block site.position inst.now)
        (λ user slot walk. InstMisses user slot walk func.now site.block site.position inst.now) result }
{
    for (slot, opd) in inst.opds.as_slice().iter().enumerate() {
        let slot = Slot { site, slot };
        check_opd(alloc, func, facts, slot, inst, opd)?;
    }
    Ok(())
}

/// The same of the operand in a slot.
fn check_opd(
    alloc: Global,
    func: &Func,
    facts: &Facts,
    at: Slot,
    inst: &Inst,
    opd: &Opd,
) -> Result<(), AvailRefusal>
    requires { AreFacts func.now facts.now }
    ensures { Judges (IsAvailableOpd func.now at.site.block at.site.position inst.now at.slot opd.now)
        (λ user number walk. (inst.now.id ≡ user) × (at.slot ≡ number)
        × OpdMisses walk func.now at.site.block at.site.position inst.now at.slot opd.now) result }
{
    match opd {
        Opd::Val(value) => check_value(alloc, func, facts, at, inst, *value),
        _ => Ok(()),
    }
}

/// The same of a slot that holds a value.
fn check_value(
    alloc: Global,
    func: &Func,
    facts: &Facts,
    at: Slot,
    inst: &Inst,
    value: Id,
) -> Result<(), AvailRefusal>
    requires { AreFacts func.now facts.now }
    ensures { Judges (IsAvailableOpd func.now at.site.block at.site.position inst.now at.slot (Opd.Val value))
        (λ user number walk. (inst.now.id ≡ user) × (at.slot ≡ number)
        × OpdMisses walk func.now at.site.block at.site.position inst.now at.slot (Opd.Val value)) result }
{
    match walk_end(&inst.op, at.slot, at.site.block) {
        None => Ok(()),
        Some(end) => {
            let before = before_use(&inst.op, func, end, at.site.position);
            let asked = Asked { value, before, end };
            judged(inst.id, at.slot, missed(alloc, func, facts, asked)?)
        }
    }
}

/// The refusal that names a use and its walk, where there is one.
fn judged(user: Id, slot: usize, missed: Option<Numbers>) -> Result<(), AvailRefusal>
    ensures { Judges (missed ≡ None)
        (λ named number walk. (user ≡ named) × (slot ≡ number) × (missed ≡ Some walk)) result }
{
    match missed {
        None => Ok(()),
        Some(walk) => match u32::try_from(slot) {
            Ok(slot) => Err(AvailRefusal::NotAvailable { user, slot, walk }),
            Err(_) => Err(AvailRefusal::OutOfMemory),
        },
    }
}

/// The least walk on which the definition does not stand before a use, where there is one.
fn missed(
    alloc: Global,
    func: &Func,
    facts: &Facts,
    asked: Asked,
) -> Result<Option<Numbers>, AllocError>
    requires { AreFacts func.now facts.now }
    ensures { IfOk result (λ miss. MatchOption miss (IsAvailableAt func.now asked.value asked.before asked.end)
        (IsLeastMiss func.now asked.value asked.before asked.end)) }
{
    if facts.known.clears(func, asked) {
        return Ok(None);
    }
    least_miss(
        alloc,
        func,
        &facts.graph,
        asked.value,
        asked.before,
        asked.end,
    )
}

/// The block in which walks to the use in a slot end, if there is one.
fn walk_end(op: &Op, slot: usize, block: usize) -> Option<usize>
    ensures { result ≡ walk_end op.now slot block }
{
    match op {
        Op::Phi { blocks } => incoming(blocks, slot),
        _ => Some(block),
    }
}

/// The incoming block of a phi's slot, if there is one.
fn incoming(blocks: &Numbers, slot: usize) -> Option<usize>
    ensures { result ≡ slice_get blocks.now slot }
{
    match blocks.get(slot) {
        Some(block) => Some(*block as usize),
        None => None,
    }
}

/// How many instructions of the last block of a walk stand before a use at a position.
fn before_use(op: &Op, func: &Func, end: usize, position: usize) -> usize
    ensures { result ≡ before_use op.now (insts_at func.now end) position }
{
    match op {
        Op::Phi { blocks: _ } => insts_at(func, end).len(),
        _ => position,
    }
}
