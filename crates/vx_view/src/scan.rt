//! Scans of a module: where an id stands, what stands beside it, and what uses it.
//!
//! Each scan goes over the text in order. A number of a function, block or slot is one of 32 bits; a module with more of them is
//! answered by want of memory, as is want of memory. Nothing else fails.

ghost use Rattle.std.specs.Prelude.{◌≡◌, ◌+◌, IfOk, option_map, slice_get};
ghost use Rattle.std.specs.Option.{option_copied};
ghost use Rattle.vx_view.specs.Answers as of_module;
ghost use Rattle.vx_view.specs.Answers.{funcs_of};
ghost use Rattle.vx_view.specs.Scans.{as_standing};

use ir_types::{Block, Func, Id, Inst, Item, OutOfMemory, Param, Place};
use std::alloc::AllocError;
use vx_list::Equal;

/// An instruction, with its block and its place.
#[derive(Drop)]
pub(crate) struct Found<'a> {
    pub(crate) place: Place,
    pub(crate) block: &'a [Inst],
    pub(crate) inst: &'a Inst,
}

/// A parameter, by its id.
fn param_in(params: &[Param], id: Id) -> Option<&Param>
    ensures { option_copied result ≡ of_module.param_in id params.now }
{
    let mut left = params;
    while let [param, rest @ ..] = left {
        if param.id.equal(&id) {
            return Some(param);
        }
        left = rest;
    }
    None
}

/// A parameter of any function.
pub(crate) fn param_of(items: &[Item], id: Id) -> Option<&Param>
    ensures { option_copied result ≡ of_module.param_of id (funcs_of items.now) }
{
    let mut left = items;
    while let [item, rest @ ..] = left {
        if let Item::Func(func) = item {
            if let Some(param) = param_in(func.params.as_slice(), id) {
                return Some(param);
            }
        }
        left = rest;
    }
    None
}

/// An instruction of a list, by its id.
fn find(insts: &[Inst], id: Id) -> Option<&Inst>
    ensures { option_copied result ≡ of_module.find id insts.now }
{
    let mut left = insts;
    while let [inst, rest @ ..] = left {
        if inst.id.equal(&id) {
            return Some(inst);
        }
        left = rest;
    }
    None
}

/// An instruction of a function's blocks.
fn standing_in<'a>(blocks: &'a [Block], func: u32, id: Id) -> Result<Option<Found<'a>>, OutOfMemory>
    ensures { IfOk result (λ found. option_map as_standing found ≡ of_module.standing_in id func 0 blocks.now) }
{
    let mut left = blocks;
    let mut number: u32 = 0;
    while let [block, rest @ ..] = left {
        if let Some(inst) = find(block.insts.as_slice(), id) {
            return Ok(Some(Found {
                place: Place {
                    func,
                    block: number,
                },
                block: block.insts.as_slice(),
                inst,
            }));
        }
        left = rest;
        number = next(number)?;
    }
    Ok(None)
}

/// The next number of 32 bits.
pub(crate) fn next(number: u32) -> Result<u32, OutOfMemory>
    ensures { IfOk result (λ more. more ≡ number + 1) }
{
    number.checked_add(1).ok_or(AllocError)
}

/// An instruction of a module.
pub(crate) fn standing_of<'a>(items: &'a [Item], id: Id) -> Result<Option<Found<'a>>, OutOfMemory>
    ensures { IfOk result (λ found. option_map as_standing found ≡ of_module.standing_of id 0 (funcs_of items.now)) }
{
    let mut left = items;
    let mut number: u32 = 0;
    while let [item, rest @ ..] = left {
        if let Item::Func(func) = item {
            if let Some(found) = standing_in(func.blocks.as_slice(), number, id)? {
                return Ok(Some(found));
            }
            number = next(number)?;
        }
        left = rest;
    }
    Ok(None)
}

/// The instruction after the one of an id.
pub(crate) fn after(insts: &[Inst], id: Id) -> Option<Id>
    ensures { result ≡ of_module.after id insts.now }
{
    let mut left = insts;
    while let [inst, rest @ ..] = left {
        if inst.id.equal(&id) {
            return first_id(rest);
        }
        left = rest;
    }
    None
}

/// The id of the first instruction.
pub(crate) fn first_id(insts: &[Inst]) -> Option<Id>
    ensures { result ≡ of_module.id_of insts.now }
{
    match insts {
        [inst, ..] => Some(inst.id),
        [] => None,
    }
}

/// The instruction before the one of an id.
pub(crate) fn before(insts: &[Inst], id: Id) -> Option<Id>
    ensures { result ≡ of_module.before id None insts.now }
{
    let mut left = insts;
    let mut last = None;
    while let [inst, rest @ ..] = left {
        if inst.id.equal(&id) {
            return last;
        }
        last = Some(inst.id);
        left = rest;
    }
    None
}

/// The function of a number.
pub(crate) fn func_at(items: &[Item], number: u32) -> Option<&Func>
    ensures { option_copied result ≡ slice_get (funcs_of items.now) number }
{
    let mut left = items;
    let mut number = number;
    while let [item, rest @ ..] = left {
        if let Item::Func(func) = item {
            if number == 0 {
                return Some(func);
            }
            number -= 1;
        }
        left = rest;
    }
    None
}
