//! `Table`: of each id of a module the answer to the question for it.
//!
//! `Table::new` is the entry point; it goes once over the module. Want of memory is the only failure, and what a module of more than 2^32
//! functions or blocks answers. The first that stands for an id is kept, and parameters go before instructions.

ghost use Rattle.std.specs.Prelude.{◌≡◌, ◌+◌, cond, IfOk, OnOk};
ghost use Rattle.ir_types.specs.declared.id.Id.{Id};
ghost use Rattle.ir_types.specs.Available.{same_id};
ghost use Rattle.ir_types.specs.IdTable.{found};
ghost use Rattle.vx_view.specs.declared.answer.Answer.{Answer};
ghost use Rattle.vx_view.specs.Answers.{funcs_of};
ghost use Rattle.vx_seeds.specs.Known.{told, or_answer, params_then, insts_then, blocks_then, all_params_then, funcs_then, IsTable};

use ir_types::{Block, Id, IdTable, Inst, Item, Module, OutOfMemory, Param, Place, Ty};
use std::alloc::{AllocError, Global};

/// What is known of an id.
#[derive(Clone, Copy)]
pub(crate) enum Known<'a> {
    Param { noalias: bool, ty: Ty },
    Inst { place: Place, inst: &'a Inst },
}

/// A module with what is known of its ids.
#[derive(Drop)]
pub(crate) struct Table<'a> {
    pub(crate) asked: &'a Module,
    pub(crate) known: IdTable<Known<'a>>,
}

impl<'a> Table<'a> {
    /// The table of a module.
    pub(crate) fn new(alloc: Global, asked: &'a Module) -> Result<Table<'a>, OutOfMemory>
        ensures is { IfOk result (λ table. IsTable table) }
        ensures asked { IfOk result (λ table. table.asked.now ≡ asked.now) }
    {
        let mut known = IdTable::new(alloc);
        add_all_params(&mut known, asked.items.as_slice())?;
        add_funcs(&mut known, asked.items.as_slice())?;
        Ok(Table { asked, known })
    }
}

/// Says what an id is, where nothing is known of it.
fn add<'a>(table: &mut IdTable<Known<'a>>, id: Id, known: Known<'a>) -> Result<(), OutOfMemory>
    ensures { OnOk result ((q : Id) (rest : Answer) → or_answer (found table.new q) rest ≡ or_answer (found table.old q) (cond (same_id id q) (told known.entry) rest)) }
{
    if table.get(id).is_none() {
        table.set(id, known)?;
    }
    Ok(())
}

/// Says what parameters are.
fn add_params(table: &mut IdTable<Known<'_>>, params: &[Param]) -> Result<(), OutOfMemory>
    ensures { OnOk result ((q : Id) (rest : Answer) → or_answer (found table.new q) rest ≡ or_answer (found table.old q) (params_then q params.now rest)) }
{
    let mut left = params;
    while let [param, more @ ..] = left {
        let known = Known::Param {
            noalias: param.noalias,
            ty: param.ty,
        };
        add(table, param.id, known)?;
        left = more;
    }
    Ok(())
}

/// Says what the parameters of all functions are.
fn add_all_params(table: &mut IdTable<Known<'_>>, items: &[Item]) -> Result<(), OutOfMemory>
    ensures { OnOk result ((q : Id) (rest : Answer) → or_answer (found table.new q) rest ≡ or_answer (found table.old q) (all_params_then q (funcs_of items.now) rest)) }
{
    let mut left = items;
    while let [item, more @ ..] = left {
        if let Item::Func(func) = item {
            add_params(table, func.params.as_slice())?;
        }
        left = more;
    }
    Ok(())
}

/// Says what the instructions of a block are.
fn add_insts<'a>(
    table: &mut IdTable<Known<'a>>,
    place: Place,
    insts: &'a [Inst],
) -> Result<(), OutOfMemory>
    ensures { OnOk result ((q : Id) (rest : Answer) → or_answer (found table.new q) rest ≡ or_answer (found table.old q) (insts_then q place insts.now rest)) }
{
    let mut left = insts;
    while let [inst, more @ ..] = left {
        add(table, inst.id, Known::Inst { place, inst })?;
        left = more;
    }
    Ok(())
}

/// Says what the instructions of a function are.
fn add_blocks<'a>(
    table: &mut IdTable<Known<'a>>,
    func: u32,
    blocks: &'a [Block],
) -> Result<(), OutOfMemory>
    ensures { OnOk result ((q : Id) (rest : Answer) → or_answer (found table.new q) rest ≡ or_answer (found table.old q) (blocks_then q func 0 blocks.now rest)) }
{
    let mut left = blocks;
    let mut number: u32 = 0;
    while let [block, more @ ..] = left {
        let place = Place {
            func,
            block: number,
        };
        add_insts(table, place, block.insts.as_slice())?;
        left = more;
        number = next(number)?;
    }
    Ok(())
}

/// Says what the instructions of all functions are.
fn add_funcs<'a>(table: &mut IdTable<Known<'a>>, items: &'a [Item]) -> Result<(), OutOfMemory>
    ensures { OnOk result ((q : Id) (rest : Answer) → or_answer (found table.new q) rest ≡ or_answer (found table.old q) (funcs_then q 0 (funcs_of items.now) rest)) }
{
    let mut left = items;
    let mut number: u32 = 0;
    while let [item, more @ ..] = left {
        if let Item::Func(func) = item {
            add_blocks(table, number, func.blocks.as_slice())?;
            number = next(number)?;
        }
        left = more;
    }
    Ok(())
}

/// The next number of 32 bits.
pub(crate) fn next(number: u32) -> Result<u32, OutOfMemory>
    ensures { IfOk result (λ more. more ≡ number + 1) }
{
    number.checked_add(1).ok_or(AllocError)
}
