//! A module copied, with the instructions of each block told anew.
//!
//! `copy` is the entry point; a `Fill` tells what stands in each block. Want of memory is the only failure, and what a module of 2^32
//! functions or blocks is answered.

ghost use Rattle.std.specs.Prelude.{◌≡◌, List, [], IfOk, suc};
ghost use Rattle.ir_types.specs.declared.id.Place.{Place};
ghost use Rattle.ir_types.specs.declared.inst.Inst.{Inst};
ghost use Rattle.sb_lines.specs.Filling.{blocks_filled, func_filled, item_filled, items_filled, func_after, filled};
ghost use Rattle.sb_lines.specs.Arena.{contents};

use crate::arena::Arena;
use ir_types::{Block, Blocks, Func, Insts, Item, Items, Module, OutOfMemory, Place};
use std::alloc::{AllocError, Global};
use vx_list::TryClone;

/// What tells the instructions of each block.
pub(crate) trait Fill {
    // What stands in each block.
    ghost filling: { Self → Place → List Inst };

    /// The instructions of a block.
    fn insts(&self, alloc: Global, place: Place) -> Result<Insts, OutOfMemory>
        ensures { IfOk result (λ insts. insts ≡ filling self.now place) };
}

/// Nothing stands in any block.
pub(crate) struct Bare;

impl Fill for Bare {
    ghost filling = { λ bare place. [] };

    fn insts(&self, alloc: Global, _place: Place) -> Result<Insts, OutOfMemory> {
        Ok(Insts::new(alloc))
    }
}

impl Fill for Arena {
    ghost filling = { λ a place. contents a place };

    fn insts(&self, alloc: Global, place: Place) -> Result<Insts, OutOfMemory> {
        match self.mark(place) {
            Some(mark) => self.insts_from(alloc, mark),
            None => Ok(Insts::new(alloc)),
        }
    }
}

/// The next number.
pub(crate) fn next(number: u32) -> Result<u32, OutOfMemory>
    ensures { IfOk result (λ more. more ≡ suc number) }
{
    number.checked_add(1).ok_or(AllocError)
}

/// A copy of the blocks of a function.
fn copy_blocks<F: Fill>(
    alloc: Global,
    fill: &F,
    func: u32,
    blocks: &[Block],
) -> Result<Blocks, OutOfMemory>
    ensures { IfOk result (λ copy. copy ≡ blocks_filled (λ place insts. F.filling fill.now place) func 0 blocks.now) }
{
    let mut copy = Blocks::new(alloc);
    let mut left = blocks;
    let mut number = 0;
    while let [block, rest @ ..] = left {
        let insts = fill.insts(
            alloc,
            Place {
                func,
                block: number,
            },
        )?;
        copy.push(Block {
            name: block.name.try_clone(alloc)?,
            insts,
        })?;
        left = rest;
        number = next(number)?;
    }
    Ok(copy)
}

/// A copy of the function of a number.
fn copy_func<F: Fill>(
    alloc: Global,
    fill: &F,
    number: u32,
    func: &Func,
) -> Result<Func, OutOfMemory>
    ensures { IfOk result (λ copy. copy ≡ func_filled (λ place insts. F.filling fill.now place) number func.now) }
{
    Ok(Func {
        before: func.before.try_clone(alloc)?,
        ret: func.ret,
        name: func.name.try_clone(alloc)?,
        params: func.params.try_clone(alloc)?,
        after: func.after.try_clone(alloc)?,
        blocks: copy_blocks(alloc, fill, number, func.blocks.as_slice())?,
    })
}

/// A copy of an item before which so many functions stand.
fn copy_item<F: Fill>(
    alloc: Global,
    fill: &F,
    number: u32,
    item: &Item,
) -> Result<Item, OutOfMemory>
    ensures { IfOk result (λ copy. copy ≡ item_filled (λ place insts. F.filling fill.now place) number item.now) }
{
    match item {
        Item::Func(func) => Ok(Item::Func(copy_func(alloc, fill, number, func)?)),
        _ => item.try_clone(alloc),
    }
}

/// The number of the next function after an item.
pub(crate) fn func_after(number: u32, item: &Item) -> Result<u32, OutOfMemory>
    ensures { IfOk result (λ more. more ≡ func_after number item.now) }
{
    match item {
        Item::Func(_) => next(number),
        _ => Ok(number),
    }
}

/// A copy of items.
fn copy_items<F: Fill>(alloc: Global, fill: &F, items: &[Item]) -> Result<Items, OutOfMemory>
    ensures { IfOk result (λ copy. copy ≡ items_filled (λ place insts. F.filling fill.now place) 0 items.now) }
{
    let mut copy = Items::new(alloc);
    let mut left = items;
    let mut number = 0;
    while let [item, rest @ ..] = left {
        copy.push(copy_item(alloc, fill, number, item)?)?;
        left = rest;
        number = func_after(number, item)?;
    }
    Ok(copy)
}

/// A copy of a module, with what is told in each block.
pub(crate) fn copy<F: Fill>(alloc: Global, fill: &F, read: &Module) -> Result<Module, OutOfMemory>
    ensures { IfOk result (λ copy. copy ≡ filled (λ place insts. F.filling fill.now place) read.now) }
{
    Ok(Module {
        items: copy_items(alloc, fill, read.items.as_slice())?,
        globals: read.globals.try_clone(alloc)?,
        big_endian_line: read.big_endian_line,
    })
}
