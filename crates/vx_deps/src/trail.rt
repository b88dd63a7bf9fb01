//! `Trail`: back over the instructions of one block, as many as are looked at.
//!
//! A trail keeps the ids that it passed, the one that it comes to next, and how many it may still pass. Want of memory is the only
//! failure.

ghost use Rattle.std.specs.Prelude.{◌≡◌, ◌<◌, true, IfOk, OnOk, Some, reverse};
ghost use Rattle.ir_types.specs.declared.module.Module.{Module};
ghost use Rattle.ir_types.specs.declared.id.Place.{Place};
ghost use Rattle.ir_types.specs.Formed.{IsFormed};
ghost use Rattle.vx_view.specs.Blocks.{block_at};
ghost use Rattle.vx_view.specs.Views.{StandsFor, IsAskable, Asks};
ghost use Rattle.vx_deps.specs.Reach.{IsIn, LooksBack, looked_ids, LooksAt};
ghost use Rattle.vx_deps.specs.Trails.{IsStart, back, rest, IsStep, NamesBack, Passes};

use crate::lookup::{before, is_there};
use ir_types::{Id, Ids, OutOfMemory};
use std::alloc::Global;
use vx_list::Seq;
use vx_view::View;

/// How many instructions that end at a store are looked at.
const LOOKED_AT: u16 = 256;

/// Where a trail stands.
#[derive(Debug, Drop)]
pub(crate) struct Trail {
    /// The ids that were passed, the last of the block first.
    passed: Vec<Id>,
    /// The next, if there is one.
    next: Option<Id>,
    /// How many may still be passed.
    left: u16,
}

impl Trail {
    /// The trail that begins at an instruction.
    fn from(alloc: Global, id: Id) -> Trail
        ensures { IsStart id result }
    {
        Trail {
            passed: Vec::new(alloc),
            next: Some(id),
            left: LOOKED_AT,
        }
    }

    /// Passes one instruction; whether there was one.
    fn step<V: View>(&mut self, view: &mut V) -> Result<bool, OutOfMemory>
        requires { IsAskable (V.seen view.old) }
        ensures is { IfOk result (λ on. (m : Module) → StandsFor (V.seen view.new) m → IsFormed m → (place : Place) → IsIn (block_at m place) self.old.next → IsStep (block_at m place) self.old self.new on) }
        ensures asks { Asks (λ m. NamesBack self.old) (V.seen view.old) (V.seen view.new) }
        ensures fewer { IfOk result (λ on. on ≡ true → self.new.left < self.old.left) }
    {
        match self.next {
            Some(id) if self.left > 0 => {
                let before = before(view, id)?;
                self.pass(id, before)?;
                Ok(true)
            }
            _ => Ok(false),
        }
    }

    /// Passes an instruction that another stands before.
    fn pass(&mut self, id: Id, before: Option<Id>) -> Result<(), OutOfMemory>
        requires { 0 < self.old.left }
        ensures { OnOk result (Passes id before self.old self.new) }
    {
        self.passed.push(id)?;
        self.next = before;
        self.left -= 1;
        Ok(())
    }
}

/// The ids of the instructions that end at one of a block, that one first.
fn back<V: View>(alloc: Global, view: &mut V, id: Id) -> Result<Vec<Id>, OutOfMemory>
    requires { IsAskable (V.seen view.old) }
    ensures is { IfOk result (λ ids. (m : Module) → StandsFor (V.seen view.new) m → IsFormed m → (place : Place) → IsIn (block_at m place) (Some id) → ids.items ≡ back 256 (block_at m place) (Some id)) }
    ensures asks { Asks (λ m q. (place : Place) → IsIn (block_at m place) (Some id) → LooksBack (back 256 (block_at m place) (Some id)) q) (V.seen view.old) (V.seen view.new) }
{
    let mut trail = Trail::from(alloc, id);
    while trail.step(view)? {}
    Ok(trail.passed)
}

/// A list of ids from its end.
fn reversed(ids: Vec<Id>) -> Ids
    ensures { result ≡ reverse ids.items }
{
    let mut ids = ids;
    ids.reverse();
    Seq::from_vec(ids)
}

/// The ids of the at most 256 instructions of its block that end at a store, in block order; none where it is no instruction.
pub(crate) fn looked_at<V: View>(alloc: Global, view: &mut V, store: Id) -> Result<Ids, OutOfMemory>
    requires { IsAskable (V.seen view.old) }
    ensures is { IfOk result (λ ids. (m : Module) → StandsFor (V.seen view.new) m → IsFormed m → ids ≡ looked_ids m store) }
    ensures asks { Asks (λ m. LooksAt m store) (V.seen view.old) (V.seen view.new) }
{
    if !is_there(view, store)? {
        return Ok(Seq::new(alloc));
    }
    let ids = back(alloc, view, store)?;
    Ok(reversed(ids))
}
