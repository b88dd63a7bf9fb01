//! The instructions of one block, walked from its mark.
//!
//! `insts_from` is the entry point. There are no more steps than nodes. Want of memory is the only failure.

ghost use Rattle.std.specs.Prelude.{◌≡◌, IfOk, length};
ghost use Rattle.std.specs.Option.{option_copied};
ghost use Rattle.sb_lines.specs.Nodes.{held, next, lines};
ghost use Rattle.sb_lines.specs.Arena.{inst_held};

use crate::arena::Arena;
use crate::nodes::{Held, Node};
use ir_types::{Inst, Insts, OutOfMemory};
use std::alloc::Global;
use vx_list::TryClone;

impl Arena {
    /// The instruction that a node holds.
    fn inst_at(&self, at: usize) -> Option<&Inst>
        ensures { option_copied result ≡ inst_held self.now at }
    {
        match self.nodes.get(at) {
            Some(
                Node {
                    held: Held::Line { inst, .. },
                    ..
                },
            ) => Some(inst),
            _ => None,
        }
    }

    /// A copy of the instructions after a mark.
    pub(crate) fn insts_from(&self, alloc: Global, mark: usize) -> Result<Insts, OutOfMemory>
        ensures { IfOk result (λ insts. insts ≡ lines (held self.now.nodes.items) (next self.now.nodes.items) (length self.now.nodes.items) mark) }
    {
        let mut insts = Insts::new(alloc);
        let mut at = mark;
        let mut left = self.nodes.len();
        while left > 0 {
            at = self.next_node(at);
            let Some(inst) = self.inst_at(at) else {
                break;
            };
            insts.push(inst.try_clone(alloc)?)?;
            left -= 1;
        }
        Ok(insts)
    }
}
