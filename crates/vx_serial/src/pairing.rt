//! `pair`: the module in which two neighbouring stores of one straight-line function have become one.
//!
//! The rule is the definition `pair_of`; this is its only entry point, and the files of this folder serve it alone. The time is
//! linear in the module, but for hashing. Want of memory is the only failure.

ghost use Rattle.std.specs.Prelude.{◌≡◌, ◌<◌, ◌++◌, List, cond, length, IfOk, OnOk};
ghost use Rattle.vx_serial.specs.Pair.{Leads, leads_at_start, paired, or_same, pair_in_blocks, pair_in_func, pair_in_items, pair_of};
ghost use Rattle.vx_serial.specs.Pair as first;
ghost use Rattle.vx_serial.specs.PairScan.{with_found};
ghost use Rattle.vx_serial.specs.PairPlaces.{JoinsLeast};
ghost use Rattle.ir_types.specs.declared.inst.Inst.{Inst};

mod forms;
mod leads;
mod scan;

use forms::is_first_func;
use ir_types::{Block, Blocks, Func, Inst, Insts, Item, Items, Module, OutOfMemory, Params};
use leads::Known;
use scan::{Found, first_pair};
use std::alloc::Global;
use vx_list::{Seq, TryClone};

/// The module in which the first two neighbouring stores of literals have become one vector store; where there are none, or
/// the module is not one function of the first forms, the module as it was given, with nothing copied.
pub fn pair(alloc: Global, m: Module) -> Result<Module, OutOfMemory>
    ensures { IfOk result (λ new. new ≡ pair_of m) }
{
    let Module {
        items,
        globals,
        big_endian_line,
    } = m;
    let items = joined_items(alloc, items)?;
    Ok(Module {
        items,
        globals,
        big_endian_line,
    })
}

/// The items with the pair joined, where there is one item.
fn joined_items(alloc: Global, items: Items) -> Result<Items, OutOfMemory>
    ensures { IfOk result (λ new. new ≡ pair_in_items items) }
{
    if items.len() != 1 {
        return Ok(items);
    }
    let mut items = items.into_vec();
    match items.pop() {
        Some(Item::Func(func)) => items.push(Item::Func(joined_func(alloc, func)?))?,
        Some(kept) => items.push(kept)?,
        None => {}
    }
    Ok(Seq::from_vec(items))
}

/// The function with its pair joined, where it is of the first forms.
fn joined_func(alloc: Global, func: Func) -> Result<Func, OutOfMemory>
    ensures { IfOk result (λ new. new ≡ cond (first.is_first_func func) (pair_in_func func) func) }
{
    if !is_first_func(&func) {
        return Ok(func);
    }
    let Func {
        before,
        ret,
        name,
        params,
        after,
        blocks,
    } = func;
    let blocks = joined_blocks(alloc, &params, blocks)?;
    Ok(Func {
        before,
        ret,
        name,
        params,
        after,
        blocks,
    })
}

/// The blocks with the pair joined, where there is one block.
fn joined_blocks(alloc: Global, params: &Params, blocks: Blocks) -> Result<Blocks, OutOfMemory>
    ensures { IfOk result (λ new. new ≡ pair_in_blocks params.now blocks) }
{
    if blocks.len() != 1 {
        return Ok(blocks);
    }
    let mut blocks = blocks.into_vec();
    if let Some(Block { name, insts }) = blocks.pop() {
        let insts = joined_insts(alloc, params, insts)?;
        blocks.push(Block { name, insts })?;
    }
    Ok(Seq::from_vec(blocks))
}

/// The instructions with the pair joined.
fn joined_insts(alloc: Global, params: &Params, insts: Insts) -> Result<Insts, OutOfMemory>
    ensures { IfOk result (λ new. new ≡ or_same insts (paired (leads_at_start params.now) insts)) }
{
    let mut known = Known::at_start(alloc, params.as_slice())?;
    match first_pair(alloc, &mut known, insts.as_slice())? {
        Some(found) => join(alloc, insts.as_slice(), found),
        None => Ok(insts),
    }
}

/// The instructions without the first store, and with both in the place of the second.
fn join(alloc: Global, insts: &[Inst], found: Found) -> Result<Insts, OutOfMemory>
    requires { found.first < found.second × found.second < length insts.now }
    ensures { IfOk result (λ new. new ≡ with_found insts.now found) }
{
    let mut joined = Insts::with_capacity(alloc, insts.len())?;
    push_copies(alloc, &mut joined, &insts[..found.first])?;
    push_copies(alloc, &mut joined, &insts[found.first + 1..found.second])?;
    joined.push(found.both)?;
    push_copies(alloc, &mut joined, &insts[found.second + 1..])?;
    Ok(joined)
}

/// Puts copies of instructions at the end.
fn push_copies(alloc: Global, joined: &mut Insts, more: &[Inst]) -> Result<(), OutOfMemory>
    ensures { OnOk result (joined.new ≡ joined.old ++ more.now) }
{
    for inst in more {
        joined.push(inst.try_clone(alloc)?)?;
    }
    Ok(())
}

/// What `pair` joins is the least pair by the place of its first store and then of its second; where it joins none, there is none.
pub fn pair_is_least()
    ensures { (leads : Leads) (insts : List Inst) → JoinsLeast leads insts (paired leads insts) }
{}
