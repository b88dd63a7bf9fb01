//! The rings of a module as it was read.
//!
//! `Arena::lift` is the entry point: each block gets its mark, and then its instructions one after another. Want of memory is the only failure,
//! and what a module is answered in which two instructions or two parameters have one id.

ghost use Rattle.std.specs.Prelude.{◌≡◌, ◌≤◌, ℕ, ◌++◌, [], ◌∷◌, cond, None, Some, IsSome, OnOk, IfOk, length};
ghost use Rattle.std.specs.HashMap.{get};
ghost use Rattle.ir_types.specs.declared.id.Id.{Id};
ghost use Rattle.ir_types.specs.declared.id.Place.{Place};
ghost use Rattle.ir_types.specs.IdTable.{found};
ghost use Rattle.vx_view.specs.Answers.{funcs_of, either};
ghost use Rattle.vx_view.specs.Views.{same_place};
ghost use Rattle.sb_lines.specs.Filling.{filled, at_end};
ghost use Rattle.sb_lines.specs.Params.{of_func, spots_at};
ghost use Rattle.sb_lines.specs.Arena.{mark, same_key, contents, seen, node, room, key_of};
ghost use Rattle.sb_lines.specs.Whole.{IsRings, IsWhole};
ghost use Rattle.sb_lines.specs.Steps.{SameModule, SameFrame};
ghost use Rattle.sb_lines.specs.Lifting.{shown, blocks_at, item_at, items_at};

use crate::Before;
use crate::arena::{Arena, BlockKey, key_of};
use crate::copying::{Bare, copy, func_after, next};
use crate::nodes::push_mark;
use crate::params::{count_funcs, params_of};
use ir_types::{Block, Inst, Item, Module, OutOfMemory, Place};
use std::alloc::{AllocError, Global};
use std::collections::HashMap;
use vx_list::TryClone;

/// How many nodes the blocks of a function want.
fn nodes_of(blocks: &[Block]) -> usize {
    let mut count: usize = 0;
    for block in blocks {
        count = count.saturating_add(1).saturating_add(block.insts.len());
    }
    count
}

/// How many nodes the functions want.
fn count_nodes(items: &[Item]) -> usize {
    let mut count: usize = 0;
    for item in items {
        if let Item::Func(func) = item {
            count = count.saturating_add(nodes_of(func.blocks.as_slice()));
        }
    }
    count
}

/// Gives a block its mark.
fn note_mark(
    marks: &mut HashMap<BlockKey, usize>,
    place: Place,
    at: usize,
) -> Result<(), OutOfMemory>
    ensures { OnOk result ((q : Place) → get same_key marks.new (key_of q) ≡ cond (same_place place q) (Some at) (get same_key marks.old (key_of q))) }
{
    marks.insert(key_of(place), at)?;
    Ok(())
}

impl Arena {
    /// The rings of a module.
    pub(crate) fn lift(alloc: Global, read: &Module) -> Result<Arena, OutOfMemory>
        ensures whole { IfOk result (λ a. IsWhole a) }
        ensures seen { IfOk result (λ a. seen a ≡ read.now) }
    {
        let items = read.items.as_slice();
        let mut arena = Arena::bare(alloc, read)?;
        arena.make_room(count_nodes(items))?;
        arena.lift_items(alloc, items)?;
        Ok(arena)
    }

    /// No block is there yet.
    fn bare(alloc: Global, read: &Module) -> Result<Arena, OutOfMemory>
        ensures rings { IfOk result (λ a. IsRings a) }
        ensures frame { IfOk result (λ a. a.frame ≡ filled (λ place insts. []) read.now) }
        ensures funcs { IfOk result (λ a. a.funcs ≡ length (funcs_of read.now.items)) }
        ensures params { IfOk result (λ a. (id : Id) (k : ℕ) → of_func k (found a.params id) ≡ spots_at id k 0 read.now.items) }
        ensures shown { IfOk result (λ a. (q : Place) → shown a q ≡ None) }
    {
        let items = read.items.as_slice();
        Ok(Arena {
            frame: copy(alloc, &Bare, read)?,
            funcs: count_funcs(items)?,
            params: params_of(alloc, items)?,
            nodes: Vec::new(alloc),
            marks: HashMap::new(alloc),
            table: HashMap::new(alloc),
        })
    }

    /// Makes room for so many more ids.
    fn make_room(&mut self, more: usize) -> Result<(), OutOfMemory>
        requires rings { IsRings self.old }
        ensures rings { IsRings self.new }
        ensures same { SameFrame self.old self.new }
        ensures contents { (q : Place) → contents self.new q ≡ contents self.old q }
        ensures node { (id : Id) → node self.new id ≡ node self.old id }
        ensures room { OnOk result (more ≤ room self.new) }
    {
        self.reserve(more)
    }

    /// The blocks of all items.
    fn lift_items(&mut self, alloc: Global, items: &[Item]) -> Result<(), OutOfMemory>
        requires rings { IsRings self.old }
        ensures rings { OnOk result (IsRings self.new) }
        ensures same { OnOk result (SameModule self.old self.new) }
        ensures shown { OnOk result ((q : Place) → shown self.new q ≡ either (items_at 0 items.now q) (shown self.old q)) }
    {
        let mut number = 0;
        for item in items {
            self.lift_item(alloc, number, item)?;
            number = func_after(number, item)?;
        }
        Ok(())
    }

    /// The blocks of an item before which so many functions stand.
    fn lift_item(&mut self, alloc: Global, number: u32, item: &Item) -> Result<(), OutOfMemory>
        requires rings { IsRings self.old }
        ensures rings { OnOk result (IsRings self.new) }
        ensures same { OnOk result (SameModule self.old self.new) }
        ensures shown { OnOk result ((q : Place) → shown self.new q ≡ either (item_at number item.now q) (shown self.old q)) }
    {
        if let Item::Func(func) = item {
            self.lift_blocks(alloc, number, func.blocks.as_slice())?;
        }
        Ok(())
    }

    /// The blocks of the function of a number.
    fn lift_blocks(&mut self, alloc: Global, func: u32, blocks: &[Block]) -> Result<(), OutOfMemory>
        requires rings { IsRings self.old }
        ensures rings { OnOk result (IsRings self.new) }
        ensures same { OnOk result (SameModule self.old self.new) }
        ensures shown { OnOk result ((q : Place) → shown self.new q ≡ either (blocks_at func 0 blocks.now q) (shown self.old q)) }
    {
        let mut number = 0;
        for block in blocks {
            let place = Place {
                func,
                block: number,
            };
            self.lift_block(alloc, place, block.insts.as_slice())?;
            number = next(number)?;
        }
        Ok(())
    }

    /// A block with its instructions.
    fn lift_block(&mut self, alloc: Global, place: Place, insts: &[Inst]) -> Result<(), OutOfMemory>
        requires rings { IsRings self.old }
        ensures rings { OnOk result (IsRings self.new) }
        ensures same { OnOk result (SameModule self.old self.new) }
        ensures shown { OnOk result ((q : Place) → shown self.new q ≡ cond (same_place place q) (Some insts.now) (shown self.old q)) }
    {
        self.open(place)?;
        self.lift_insts(alloc, place, insts)
    }

    /// An empty block with its mark.
    fn open(&mut self, place: Place) -> Result<(), OutOfMemory>
        requires rings { IsRings self.old }
        ensures rings { OnOk result (IsRings self.new) }
        ensures same { OnOk result (SameModule self.old self.new) }
        ensures shown { OnOk result ((q : Place) → shown self.new q ≡ cond (same_place place q) (Some []) (shown self.old q)) }
    {
        if self.mark(place).is_some() {
            return Err(AllocError);
        }
        let at = self.nodes.len();
        push_mark(&mut self.nodes, place)?;
        note_mark(&mut self.marks, place, at)?;
        Ok(())
    }

    /// Instructions at the end of a block.
    fn lift_insts(&mut self, alloc: Global, place: Place, insts: &[Inst]) -> Result<(), OutOfMemory>
        requires rings { IsRings self.old }
        requires marked { IsSome (mark self.old place) }
        ensures rings { OnOk result (IsRings self.new) }
        ensures same { OnOk result (SameFrame self.old self.new) }
        ensures contents { OnOk result ((q : Place) → contents self.new q ≡ cond (same_place place q) (contents self.old q ++ insts.now) (contents self.old q)) }
    {
        for inst in insts {
            self.lift_inst(alloc, place, inst)?;
        }
        Ok(())
    }

    /// An instruction at the end of a block.
    fn lift_inst(&mut self, alloc: Global, place: Place, inst: &Inst) -> Result<(), OutOfMemory>
        requires rings { IsRings self.old }
        requires marked { IsSome (mark self.old place) }
        ensures rings { OnOk result (IsRings self.new) }
        ensures same { OnOk result (SameFrame self.old self.new) }
        ensures contents { OnOk result ((q : Place) → contents self.new q ≡ at_end place inst.now q (contents self.old q)) }
    {
        if self.node(inst.id).is_some() {
            return Err(AllocError);
        }
        self.make_room(1)?;
        self.insert(Before::End(place), inst.try_clone(alloc)?);
        Ok(())
    }
}
