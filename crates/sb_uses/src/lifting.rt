//! The use lists of a module as it was read.
//!
//! `Slots::lift` is the entry point: each instruction brings its slots in, in order of the text. Want of memory is the only failure, and what
//! a module of 2^32 slots or more is answered.

ghost use Rattle.std.specs.Prelude.{◌≡◌, ◌+◌, [], length, IfOk, OnOk};
ghost use Rattle.vx_view.specs.Answers.{funcs_of};
ghost use Rattle.vx_view.specs.Uses.{lifted};
ghost use Rattle.sb_uses.specs.Stock.{stock, LacksSlots};
ghost use Rattle.sb_uses.specs.Totals.{IdsApart, slots_of, width, total_in, total_of_blocks, total_of_funcs};
ghost use Rattle.sb_uses.specs.Lifting.{inst_added, insts_added, blocks_added, funcs_added, CanAddInsts, CanAddBlocks, CanAddFuncs};

use crate::Slots;
use ir_types::{Block, Inst, Item, Module, OutOfMemory};
use std::alloc::Global;

impl Slots {
    /// The use lists of a module whose ids are apart, each newest first: the last slot of the text comes first.
    pub fn lift(alloc: Global, read: &Module) -> Result<Slots, OutOfMemory>
        requires { IdsApart read.now }
        ensures lists { IfOk result (λ slots. (stock slots).lists ≡ lifted read.now) }
        ensures kept { IfOk result (λ slots. slots.kept ≡ []) }
        ensures held { IfOk result (λ slots. slots.held ≡ slots_of read.now) }
    {
        let mut slots = Slots::new(alloc);
        slots.lift_items(read.items.as_slice())?;
        Ok(slots)
    }

    /// Brings the slots of all functions in.
    fn lift_items(&mut self, items: &[Item]) -> Result<(), OutOfMemory>
        requires { CanAddFuncs (funcs_of items.now) (stock self.old) }
        ensures now { OnOk result (stock self.new ≡ funcs_added (funcs_of items.now) (stock self.old)) }
        ensures held { OnOk result (self.new.held ≡ self.old.held + total_of_funcs width (funcs_of items.now)) }
    {
        let mut left = items;
        while let [item, rest @ ..] = left {
            if let Item::Func(func) = item {
                self.lift_blocks(func.blocks.as_slice())?;
            }
            left = rest;
        }
        Ok(())
    }

    /// Brings the slots of blocks in.
    fn lift_blocks(&mut self, blocks: &[Block]) -> Result<(), OutOfMemory>
        requires { CanAddBlocks blocks.now (stock self.old) }
        ensures now { OnOk result (stock self.new ≡ blocks_added blocks.now (stock self.old)) }
        ensures held { OnOk result (self.new.held ≡ self.old.held + total_of_blocks width blocks.now) }
    {
        let mut left = blocks;
        while let [block, rest @ ..] = left {
            self.lift_insts(block.insts.as_slice())?;
            left = rest;
        }
        Ok(())
    }

    /// Brings the slots of instructions in.
    fn lift_insts(&mut self, insts: &[Inst]) -> Result<(), OutOfMemory>
        requires { CanAddInsts insts.now (stock self.old) }
        ensures now { OnOk result (stock self.new ≡ insts_added insts.now (stock self.old)) }
        ensures held { OnOk result (self.new.held ≡ self.old.held + total_in width insts.now) }
    {
        let mut left = insts;
        while let [inst, rest @ ..] = left {
            self.lift_inst(inst)?;
            left = rest;
        }
        Ok(())
    }

    /// Brings the slots of an instruction in.
    fn lift_inst(&mut self, inst: &Inst) -> Result<(), OutOfMemory>
        requires { LacksSlots inst.now.id 0 inst.now.opds (stock self.old).lists }
        ensures now { OnOk result (stock self.new ≡ inst_added inst.now (stock self.old)) }
        ensures held { OnOk result (self.new.held ≡ self.old.held + width inst.now) }
    {
        let opds = inst.opds.as_slice();
        self.reserve(opds.len() as u64)?;
        self.add(inst.id, opds);
        Ok(())
    }
}
