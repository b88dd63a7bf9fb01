//! `regions`: the regions of a module, function by function and block by block.
//!
//! Want of memory is the only failure, and what a module of more than 2^32 functions or blocks answers.

ghost use Rattle.ir_types.specs.declared.func.Func.{Func};
ghost use Rattle.ir_types.specs.declared.module.Item.{Item};
ghost use Rattle.ir_types.specs.declared.module.Item.TheVariants.{Func as FuncItem};
ghost use Rattle.std.specs.Prelude.{◌≡◌, List, ◌∷◌, drop, ◌++◌, Some, false, IfOk, OnOk, slice_get, slice_index_or};
ghost use Rattle.ir_types.specs.Available.{graph_of};
ghost use Rattle.ir_types.specs.Formed.{IsFormed};
ghost use Rattle.vx_view.specs.Answers.{funcs_of};
ghost use Rattle.vx_view.specs.Blocks.{block_at};
ghost use Rattle.vx_serial.specs.Regions as region;

use crate::block::block_regions;
use crate::graph::graph_of;
use crate::index::Index;
use crate::known::next;
use crate::reached::reached;
use crate::spot::spots;
use ir_types::{Func, Ids, Inst, Item, Module, OutOfMemory, Place};
use std::alloc::Global;
use vx_list::TryClone;
use vx_serial::Seed;

/// Regions, in order.
pub type Seeds = Vec<Seed>;

/// Adds the regions of a block by its place.
fn add_seeds(
    alloc: Global,
    place: Place,
    regions: &[Ids],
    seeds: &mut Seeds,
) -> Result<(), OutOfMemory>
    ensures { OnOk result (seeds.new.items ≡ seeds.old.items ++ region.at_place place regions.now) }
{
    let mut left = regions;
    while let [region, more @ ..] = left {
        let stores = region.try_clone(alloc)?;
        seeds.push(Seed { place, stores })?;
        left = more;
    }
    Ok(())
}

/// Adds the regions of a block.
fn add_block(
    alloc: Global,
    width: u32,
    index: &mut Index<'_>,
    place: Place,
    block: &[Inst],
    seeds: &mut Seeds,
) -> Result<(), OutOfMemory>
    requires formed { IsFormed index.old }
    requires there { block_at index.old place ≡ block.now }
    ensures is { OnOk result (seeds.new.items ≡ seeds.old.items ++ region.at_place place (region.block_regions width block.now)) }
    ensures same { index.new ≡ index.old }
{
    let spots = spots(alloc, index, place, block)?;
    let regions = block_regions(alloc, width, &spots)?;
    add_seeds(alloc, place, &regions, seeds)?;
    Ok(())
}

/// Adds the regions of a function.
fn add_func(
    alloc: Global,
    width: u32,
    index: &mut Index<'_>,
    number: u32,
    func: &Func,
    seeds: &mut Seeds,
) -> Result<(), OutOfMemory>
    requires formed { IsFormed index.old }
    requires there { slice_get (funcs_of index.old.items) number ≡ Some func.now }
    ensures is { OnOk result (seeds.new.items ≡ seeds.old.items ++ region.regions_in width number (graph_of func.now) 0 func.now.blocks) }
    ensures same { index.new ≡ index.old }
{
    let graph = graph_of(alloc, func)?;
    let marks = reached(alloc, graph.as_slice())?;
    let mut at: u32 = 0;
    for block in func.blocks.as_slice() {
        let place = Place {
            func: number,
            block: at,
        };
        if is_marked(&marks, at) {
            add_block(alloc, width, index, place, block.insts.as_slice(), seeds)?;
        }
        at = next(at)?;
    }
    Ok(())
}

/// Whether a block is marked.
fn is_marked(marks: &[bool], number: u32) -> bool
    ensures { result ≡ slice_index_or marks.now number false }
{
    match marks.get(number as usize) {
        Some(marked) => *marked,
        None => false,
    }
}

/// Adds the regions of an item, and gives the number of the next function.
fn add_item(
    alloc: Global,
    width: u32,
    index: &mut Index<'_>,
    number: u32,
    item: &Item,
    seeds: &mut Seeds,
) -> Result<u32, OutOfMemory>
    requires formed { IsFormed index.old }
    requires there { (f : Func) → item.now ≡ FuncItem f → slice_get (funcs_of index.old.items) number ≡ Some f }
    ensures is { IfOk result (λ more. (items : List Item) → seeds.new.items ++ region.regions_of width more (funcs_of items) ≡ seeds.old.items ++ region.regions_of width number (funcs_of (item.now ∷ items))) }
    ensures left { IfOk result (λ more. (items : List Item) (fs : List Func) → drop number fs ≡ funcs_of (item.now ∷ items) → drop more fs ≡ funcs_of items) }
    ensures same { index.new ≡ index.old }
{
    match item {
        Item::Func(func) => {
            add_func(alloc, width, index, number, func, seeds)?;
            let more = next(number)?;
            Ok(more)
        }
        _ => Ok(number),
    }
}

/// Adds the regions of all functions.
fn add_items(
    alloc: Global,
    width: u32,
    index: &mut Index<'_>,
    items: &[Item],
    seeds: &mut Seeds,
) -> Result<(), OutOfMemory>
    requires formed { IsFormed index.old }
    requires there { index.old.items ≡ items.now }
    ensures { OnOk result (seeds.new.items ≡ seeds.old.items ++ region.regions_of width 0 (funcs_of items.now)) }
{
    let mut number: u32 = 0;
    for item in items {
        number = add_item(alloc, width, index, number, item, seeds)?;
    }
    Ok(())
}

/// The regions of a formed module, in vector registers of so many bits.
pub fn regions(alloc: Global, m: &Module, width: u32) -> Result<Seeds, OutOfMemory>
    requires { IsFormed m.now }
    ensures { IfOk result (λ seeds. seeds.items ≡ region.regions m.now width) }
{
    let mut index = Index::new(alloc, m)?;
    let mut seeds = Vec::new(alloc);
    add_items(alloc, width, &mut index, m.items.as_slice(), &mut seeds)?;
    Ok(seeds)
}
