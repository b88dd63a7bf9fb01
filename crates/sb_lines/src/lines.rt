//! `Lines`: the instructions of a module, linked in their blocks.
//!
//! Contracts see the module that it holds (`seen`), which ids it `knows`, and the `room`: how many new ids can come without memory. What is
//! asked is answered as of that module, in constant time. A change takes constant time, makes of the module what the definition says, and
//! gives what undoes it. Only `lift`, `lower` and `reserve` want memory: an instruction that was taken out keeps its node, and comes back to
//! it. The nodes are rings at all times, one for each block.

ghost use Rattle.std.specs.Prelude.{◌≡◌, ◌≤◌, ◌<◌, ◌+◌, true, false, Some, None, IsSome, IsOk, IfOk, OnOk, cond, length, slice_get, option_map, option_and_then};
ghost use Rattle.ir_types.specs.declared.id.Id.{Id};
ghost use Rattle.vx_view.specs.Answers as of_module;
ghost use Rattle.vx_view.specs.Answers.{funcs_of, param_of, first_in};
ghost use Rattle.vx_view.specs.Changes.{applied, ty_in};
ghost use Rattle.vx_view.specs.declared.change.Change.TheVariants.{Insert, Remove, Replace, SetOperand};
ghost use Rattle.sb_lines.specs.Arena.{seen, knows, room, Keeps, as_told, told_of};
ghost use Rattle.sb_lines.specs.Params.{spot_from, spot_told, param_told};
ghost use Rattle.sb_lines.specs.Spots.{put_in, moved_to, HasSpot, CanPut, IsBeforeOther, spot_of, inst_of, operand};

use crate::arena::Arena;
use crate::copying::copy;
use crate::{Before, Found, ParamSpot, Spot};
use ir_types::{Id, Inst, Module, Opd, OutOfMemory, Place, Ty};
use std::alloc::Global;
use std::marker::Model;

/// The instructions of a module.
#[derive(Drop)]
pub struct Lines {
    arena: Arena,
    alloc: Global,
}

impl Model for Lines {
    ghost use Rattle.sb_lines.specs.declared.arena.Arena.{Arena};
    ghost use Rattle.sb_lines.specs.contracts.arena.Arena.{the_row};
    ghost use Rattle.sb_lines.specs.Whole.{IsWhole};

    ghost Value = { Arena };

    ghost coded = { the_row.coded };

    ghost view = { λ l. l.arena };

    ghost invariant = { λ l. IsWhole l.arena };
}

impl Lines {
    /// The module that was read, which is copied once. A module in which an id stands twice, of two instructions or of two parameters, is
    /// answered as for want of memory.
    pub fn lift(alloc: Global, read: &Module) -> Result<Lines, OutOfMemory>
        ensures { IfOk result (λ lines. seen lines ≡ read.now) }
    {
        let arena = Arena::lift(alloc, read)?;
        Ok(Lines { arena, alloc })
    }

    /// The module that it holds.
    pub fn lower(&self) -> Result<Module, OutOfMemory>
        ensures { IfOk result (λ m. m ≡ seen self.now) }
    {
        copy(self.alloc, &self.arena, &self.arena.frame)
    }

    /// Makes room for so many more ids.
    pub fn reserve(&mut self, more: u64) -> Result<(), OutOfMemory>
        ensures same { seen self.new ≡ seen self.old }
        ensures knows { (id : Id) → knows self.new id ≡ knows self.old id }
        ensures ok { OnOk result (more ≤ room self.new) }
        ensures had_room { more ≤ room self.old → IsOk result }
        ensures room { room self.old ≤ room self.new }
    {
        self.arena.reserve(more as usize)
    }

    /// The instruction of an id, with its block.
    pub fn found(&self, id: Id) -> Option<Found<'_>>
        ensures { option_map as_told result ≡ option_map told_of (of_module.found (seen self.now) id) }
    {
        self.arena.found(id)
    }

    /// The parameter of an id, with its function.
    pub fn param(&self, id: Id) -> Option<ParamSpot>
        ensures spot { result ≡ spot_from id 0 (funcs_of (seen self.now).items) }
        ensures param { option_map spot_told result ≡ option_map param_told (param_of id (funcs_of (seen self.now).items)) }
    {
        self.arena.params.get(id).copied()
    }

    /// The type that an operand has in the function of a number.
    pub fn ty_in(&self, opd: &Opd, func: u32) -> Option<Ty>
        ensures { result ≡ ty_in (seen self.now) opd.now (slice_get (funcs_of (seen self.now).items) func) }
    {
        self.arena.ty_in(opd, func)
    }

    /// How many globals the module has.
    pub fn globals(&self) -> usize
        ensures { result ≡ length (seen self.now).globals }
    {
        self.arena.frame.globals.len()
    }

    /// The instruction after that of an id in its block.
    pub fn next(&self, id: Id) -> Option<Id>
        ensures { result ≡ option_and_then (λ s. of_module.after id s.block) (of_module.found (seen self.now) id) }
    {
        self.arena.next(id)
    }

    /// The instruction before that of an id in its block.
    pub fn prev(&self, id: Id) -> Option<Id>
        ensures { result ≡ option_and_then (λ s. of_module.before id None s.block) (of_module.found (seen self.now) id) }
    {
        self.arena.prev(id)
    }

    /// The first instruction of a block.
    pub fn first(&self, place: Place) -> Option<Id>
        ensures { result ≡ first_in place.block (slice_get (funcs_of (seen self.now).items) place.func) }
    {
        self.arena.first(place)
    }

    /// Puts an instruction in, whose id no other has. Its id is known, or there is room.
    pub fn insert(&mut self, before: Before, inst: Inst)
        requires can { CanPut (seen self.old) before inst.id }
        requires room { knows self.old inst.id ≡ false → 0 < room self.old }
        ensures now { seen self.new ≡ put_in before inst (seen self.old) }
        ensures back { applied (Remove inst.id) (seen self.new) ≡ seen self.old }
        ensures there { option_map inst_of (of_module.found (seen self.new) inst.id) ≡ Some inst }
        ensures known { knows self.new inst.id ≡ true }
        ensures keeps { Keeps self.old self.new }
        ensures room { room self.old ≤ room self.new + cond (knows self.old inst.id) 0 1 }
    {
        self.arena.insert(before, inst);
    }

    /// Takes an instruction out; its id stays known.
    pub fn remove(&mut self, id: Id) -> Spot
        requires there { IsSome (of_module.found (seen self.old) id) }
        ensures now { seen self.new ≡ applied (Remove id) (seen self.old) }
        ensures spot { option_map (spot_of id) (of_module.found (seen self.old) id) ≡ Some result }
        ensures back { put_in result.before result.inst (seen self.new) ≡ seen self.old }
        ensures can { CanPut (seen self.new) result.before result.inst.id }
        ensures id { result.inst.id ≡ id }
        ensures known { knows self.new id ≡ true }
        ensures keeps { Keeps self.old self.new }
        ensures room { room self.new ≡ room self.old }
    {
        self.arena.remove(id)
    }

    /// Puts an instruction that was taken out back to its place, which undoes `remove`.
    pub fn bring_back(&mut self, spot: Spot)
        requires can { CanPut (seen self.old) spot.before spot.inst.id }
        requires known { knows self.old spot.inst.id ≡ true }
        ensures now { seen self.new ≡ put_in spot.before spot.inst (seen self.old) }
        ensures keeps { Keeps self.old self.new }
        ensures room { room self.old ≤ room self.new }
    {
        self.arena.insert(spot.before, spot.inst);
    }

    /// Takes an instruction out and puts it elsewhere, and gives where it stood: moving it there undoes it.
    pub fn shift(&mut self, id: Id, before: Before) -> Before
        requires there { IsSome (of_module.found (seen self.old) id) }
        requires place { HasSpot (seen self.old) before }
        requires other { IsBeforeOther id before }
        ensures now { seen self.new ≡ moved_to id before (seen self.old) }
        ensures was { option_map (λ s. (spot_of id s).before) (of_module.found (seen self.old) id) ≡ Some result }
        ensures back { moved_to id result (seen self.new) ≡ seen self.old }
        ensures there { IsSome (of_module.found (seen self.new) id) }
        ensures place { HasSpot (seen self.new) result }
        ensures other { IsBeforeOther id result }
        ensures keeps { Keeps self.old self.new }
        ensures room { room self.old ≤ room self.new }
    {
        self.arena.shift(id, before)
    }

    /// Puts an instruction in the place of the one with its id, and gives that one: putting it undoes it.
    pub fn put(&mut self, inst: Inst) -> Inst
        requires there { IsSome (of_module.found (seen self.old) inst.id) }
        ensures now { seen self.new ≡ applied (Replace inst) (seen self.old) }
        ensures was { option_map inst_of (of_module.found (seen self.old) inst.id) ≡ Some result }
        ensures back { applied (Replace result) (seen self.new) ≡ seen self.old }
        ensures there { option_map inst_of (of_module.found (seen self.new) result.id) ≡ Some inst }
        ensures id { result.id ≡ inst.id }
        ensures keeps { Keeps self.old self.new }
        ensures room { room self.new ≡ room self.old }
    {
        self.arena.put(inst)
    }

    /// Sets an operand of an instruction, and gives the one before: setting that undoes it.
    pub fn set_operand(&mut self, id: Id, slot: u32, to: Opd) -> Opd
        requires there { IsSome (operand (seen self.old) id slot) }
        ensures now { seen self.new ≡ applied (SetOperand id slot to) (seen self.old) }
        ensures was { operand (seen self.old) id slot ≡ Some result }
        ensures back { applied (SetOperand id slot result) (seen self.new) ≡ seen self.old }
        ensures there { operand (seen self.new) id slot ≡ Some to }
        ensures keeps { Keeps self.old self.new }
        ensures room { room self.new ≡ room self.old }
    {
        self.arena.set_operand(id, slot, to)
    }
}
