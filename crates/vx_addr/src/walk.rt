//! `Walk`: back over the definitions of a pointer, and then of a symbol, in one block.
//!
//! A walk keeps the pointer that it came to, what is added to it, and how many definitions it may still follow. `pointers` goes as far as
//! pointers lead, `sums` then as far as sums do. Want of memory is the only failure.

ghost use Rattle.std.specs.Prelude.{◌≡◌, ◌<◌, true, IfOk, Some};
ghost use Rattle.ir_types.specs.declared.id.Id.{Id};
ghost use Rattle.ir_types.specs.declared.module.Module.{Module};
ghost use Rattle.ir_types.specs.Formed.{IsFormed};
ghost use Rattle.vx_view.specs.Addresses.{led_op, summed_by, is_wide, is_sum, form_of, Symbol};
ghost use Rattle.vx_view.specs.Blocks.{block_at};
ghost use Rattle.vx_view.specs.Views.{StandsFor, IsAskable, Asks};
ghost use Rattle.vx_addr.specs.Parts.{as_offset, as_walked, IsPlain};
ghost use Rattle.vx_addr.specs.Walks.{Names, on_from, on_rest, first, end, still, IsStep, Follows, IsSumStep, FollowsSum};
ghost use Rattle.std.specs.Prelude.{◌&&◌};

use crate::indices::led_op;
use crate::lookup::definition;
use crate::offset::Offset;
use crate::sum::summed_by;
use ir_types::{Inst, Opd, OutOfMemory, Place};
use std::alloc::Global;
use vx_view::View;

/// Where a walk stands.
#[derive(Debug, Drop)]
pub(crate) struct Walk {
    pub(crate) pointer: Opd,
    pub(crate) offset: Offset,
    /// How many definitions may still be followed.
    left: u32,
}

impl Walk {
    /// The walk that begins at a pointer.
    fn from(pointer: Opd) -> Walk
        ensures { as_walked result ≡ first pointer }
    {
        Walk {
            pointer,
            offset: Offset {
                symbol: None,
                constant: 0,
            },
            left: 64,
        }
    }

    /// Goes where an instruction leads from the pointer; whether it does.
    fn follow(&mut self, alloc: Global, inst: &Inst) -> Result<bool, OutOfMemory>
        requires { 0 < self.old.left }
        ensures is { IfOk result (λ on. IsPlain inst.now → Follows (led_op inst.now.op inst.now.opds (as_offset self.old.offset)) (as_walked self.old) (as_walked self.new) on) }
        ensures fewer { IfOk result (λ on. on ≡ true → self.new.left < self.old.left) }
    {
        match led_op(alloc, inst, self.offset)? {
            None => Ok(false),
            Some((pointer, offset)) => {
                self.pointer = pointer;
                self.offset = offset;
                self.left -= 1;
                Ok(true)
            }
        }
    }

    /// One step back over pointers; whether one was made.
    fn step<V: View>(
        &mut self,
        alloc: Global,
        view: &mut V,
        place: Place,
    ) -> Result<bool, OutOfMemory>
        requires { IsAskable (V.seen view.old) }
        ensures is { IfOk result (λ on. (m : Module) → StandsFor (V.seen view.new) m → IsFormed m → IsStep (block_at m place) (as_walked self.old) (as_walked self.new) on) }
        ensures asks { Asks (λ m. Names (on_from (block_at m place) (as_walked self.old))) (V.seen view.old) (V.seen view.new) }
        ensures fewer { IfOk result (λ on. on ≡ true → self.new.left < self.old.left) }
    {
        match self.pointer {
            Opd::Val(id) if self.left > 0 => match definition(view, place, id)? {
                Some(inst) => self.follow(alloc, &inst),
                None => Ok(false),
            },
            _ => Ok(false),
        }
    }

    /// Goes where an instruction leads from the symbol; whether it does.
    fn follow_sum(&mut self, inst: &Inst, scale: u64) -> bool
        requires { 0 < self.old.left }
        ensures is { FollowsSum (summed_by (is_wide inst.now.ty && is_sum inst.now.op) inst.now.opds scale self.old.offset.constant) (as_walked self.old) (as_walked self.new) result }
        ensures fewer { result ≡ true → self.new.left < self.old.left }
    {
        match summed_by(inst, scale, self.offset.constant) {
            None => false,
            Some(offset) => {
                self.offset = offset;
                self.left -= 1;
                true
            }
        }
    }

    /// One step back over sums; whether one was made.
    fn sum_step<V: View>(&mut self, view: &mut V, place: Place) -> Result<bool, OutOfMemory>
        requires { IsAskable (V.seen view.old) }
        ensures is { IfOk result (λ on. (m : Module) → StandsFor (V.seen view.new) m → IsFormed m → IsSumStep (block_at m place) (as_walked self.old) (as_walked self.new) on) }
        ensures asks { Asks (λ m. Names (on_rest (block_at m place) (as_walked self.old))) (V.seen view.old) (V.seen view.new) }
        ensures fewer { IfOk result (λ on. on ≡ true → self.new.left < self.old.left) }
    {
        match self.offset.symbol {
            Some((id, scale)) if self.left > 0 => match definition(view, place, id)? {
                Some(inst) => Ok(self.follow_sum(&inst, scale)),
                None => Ok(false),
            },
            _ => Ok(false),
        }
    }
}

/// As far as pointers lead back.
pub(crate) fn pointers<V: View>(
    alloc: Global,
    view: &mut V,
    place: Place,
    pointer: Opd,
) -> Result<Walk, OutOfMemory>
    requires { IsAskable (V.seen view.old) }
    ensures is { IfOk result (λ walk. (m : Module) → StandsFor (V.seen view.new) m → IsFormed m → as_walked walk ≡ end (block_at m place) (first pointer)) }
    ensures asks { Asks (λ m. Names (on_from (block_at m place) (first pointer))) (V.seen view.old) (V.seen view.new) }
{
    let mut walk = Walk::from(pointer);
    while walk.step(alloc, view, place)? {}
    Ok(walk)
}

/// As far as sums lead back from there.
pub(crate) fn sums<V: View>(view: &mut V, place: Place, walk: Walk) -> Result<Walk, OutOfMemory>
    requires { IsAskable (V.seen view.old) }
    ensures is { IfOk result (λ end. (m : Module) → StandsFor (V.seen view.new) m → IsFormed m → still (as_walked end) ≡ form_of (block_at m place) (as_walked walk)) }
    ensures asks { Asks (λ m. Names (on_rest (block_at m place) (as_walked walk))) (V.seen view.old) (V.seen view.new) }
{
    let mut walk = walk;
    while walk.sum_step(view, place)? {}
    Ok(walk)
}
