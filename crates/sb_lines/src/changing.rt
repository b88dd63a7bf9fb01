//! The changes of instructions in rings.
//!
//! `insert`, `remove`, `shift`, `put` and `set_operand` are the entry points. Each finds the node by its id, writes what it holds, and links it
//! in or takes it out. Nothing here fails.

ghost use Rattle.std.specs.Prelude.{◌≡◌, ◌≤◌, ◌<◌, ◌+◌, ℕ, true, false, None, Some, IsSome, cond, length, slice_get, option_map, option_and_then};
ghost use Rattle.std.specs.HashMap.{get, spare};
ghost use Rattle.ir_types.specs.declared.id.Id.{Id};
ghost use Rattle.ir_types.specs.declared.id.Place.{Place};
ghost use Rattle.ir_types.specs.declared.inst.Inst.{Inst};
ghost use Rattle.ir_types.specs.Available.{same_id};
ghost use Rattle.vx_view.specs.Changes as change;
ghost use Rattle.vx_view.specs.Changes.{each, removing, putting, setting};
ghost use Rattle.sb_lines.specs.Nodes.{held};
ghost use Rattle.sb_lines.specs.declared.nodes.Held.TheVariants.{Gone};
ghost use Rattle.sb_lines.specs.declared.spot.Before.{Before};
ghost use Rattle.sb_lines.specs.Spots.{IsBeforeOther};
ghost use Rattle.sb_lines.specs.Arena.{contents, node, knows, standing, place_held, before_held, room, Keeps};
ghost use Rattle.sb_lines.specs.Whole.{IsRings};
ghost use Rattle.sb_lines.specs.Steps.{SameFrame, coming, HasPlace, stood_before, told_inst, told_operand};

use crate::arena::Arena;
use crate::nodes::{Held, hold, link, push_gone, unlink};
use crate::{Before, Spot};
use ir_types::{Id, Inst, Opd};
use std::collections::HashMap;

impl Arena {
    /// Puts an instruction in.
    pub(crate) fn insert(&mut self, before: Before, inst: Inst)
        requires rings { IsRings self.old }
        requires place { HasPlace self.old before }
        requires lacks { standing self.old inst.id ≡ None }
        requires room { knows self.old inst.id ≡ false → 0 < room self.old }
        ensures rings { IsRings self.new }
        ensures same { SameFrame self.old self.new }
        ensures contents { (q : Place) → contents self.new q ≡ coming before inst q (contents self.old q) }
        ensures back { (q : Place) → each (removing inst.id) (contents self.new q) ≡ contents self.old q }
        ensures there { option_map told_inst (standing self.new inst.id) ≡ Some inst }
        ensures others { (x : Id) → same_id inst.id x ≡ false → standing self.new x ≡ standing self.old x }
        ensures known { knows self.new inst.id ≡ true }
        ensures keeps { Keeps self.old self.new }
        ensures room { room self.old ≤ room self.new + cond (knows self.old inst.id) 0 1 }
    {
        let Some(spot) = self.spot(before) else {
            unreachable!();
        };
        let at = self.enter(inst.id);
        self.put_line(at, spot, inst);
    }

    /// The node of an id whose instruction does not stand, which is made where there is none.
    fn enter(&mut self, id: Id) -> usize
        requires rings { IsRings self.old }
        requires lacks { standing self.old id ≡ None }
        requires room { knows self.old id ≡ false → 0 < room self.old }
        ensures rings { IsRings self.new }
        ensures same { SameFrame self.old self.new }
        ensures contents { (q : Place) → contents self.new q ≡ contents self.old q }
        ensures held { (y : ℕ) → held self.new.nodes.items y ≡ held self.old.nodes.items y }
        ensures node { node self.new id ≡ Some result }
        ensures gone { held self.new.nodes.items result ≡ Gone }
        ensures standing { (x : Id) → standing self.new x ≡ standing self.old x }
        ensures keeps { Keeps self.old self.new }
        ensures room { room self.old ≤ room self.new + cond (knows self.old id) 0 1 }
    {
        match self.node(id) {
            Some(at) => at,
            None => self.enter_new(id),
        }
    }

    /// A node for an id that had none.
    fn enter_new(&mut self, id: Id) -> usize
        requires rings { IsRings self.old }
        requires none { node self.old id ≡ None }
        requires room { 0 < room self.old }
        ensures rings { IsRings self.new }
        ensures same { SameFrame self.old self.new }
        ensures contents { (q : Place) → contents self.new q ≡ contents self.old q }
        ensures held { (y : ℕ) → held self.new.nodes.items y ≡ held self.old.nodes.items y }
        ensures node { node self.new id ≡ Some result }
        ensures gone { held self.new.nodes.items result ≡ Gone }
        ensures standing { (x : Id) → standing self.new x ≡ standing self.old x }
        ensures keeps { Keeps self.old self.new }
        ensures room { room self.old ≤ room self.new + 1 }
    {
        let at = self.nodes.len();
        push_gone(&mut self.nodes);
        note(&mut self.table, id, at);
        at
    }

    /// Puts an instruction into its node, which holds nothing, and links that in before another.
    fn put_line(&mut self, at: usize, spot: usize, inst: Inst)
        requires rings { IsRings self.old }
        requires place { IsSome (place_held self.old spot) }
        requires node { node self.old inst.id ≡ Some at }
        requires gone { held self.old.nodes.items at ≡ Gone }
        ensures rings { IsRings self.new }
        ensures same { SameFrame self.old self.new }
        ensures node { (x : Id) → node self.new x ≡ node self.old x }
        ensures contents { (before : Before) → before_held self.old spot ≡ Some before → (q : Place) → contents self.new q ≡ coming before inst q (contents self.old q) }
        ensures back { (q : Place) → each (removing inst.id) (contents self.new q) ≡ contents self.old q }
        ensures there { option_map told_inst (standing self.new inst.id) ≡ Some inst }
        ensures others { (x : Id) → same_id inst.id x ≡ false → standing self.new x ≡ standing self.old x }
        ensures room { room self.new ≡ room self.old }
    {
        let Some(place) = self.place_at(spot) else {
            unreachable!();
        };
        hold(&mut self.nodes, at, Held::Line { place, inst });
        link(&mut self.nodes, at, spot);
    }

    /// Takes an instruction out.
    pub(crate) fn remove(&mut self, id: Id) -> Spot
        requires rings { IsRings self.old }
        requires there { IsSome (standing self.old id) }
        ensures rings { IsRings self.new }
        ensures same { SameFrame self.old self.new }
        ensures node { (x : Id) → node self.new x ≡ node self.old x }
        ensures contents { (q : Place) → contents self.new q ≡ each (removing id) (contents self.old q) }
        ensures back { (q : Place) → coming result.before result.inst q (contents self.new q) ≡ contents self.old q }
        ensures inst { option_map told_inst (standing self.old id) ≡ Some result.inst }
        ensures before { stood_before self.old id ≡ Some result.before }
        ensures id { result.inst.id ≡ id }
        ensures lacks { standing self.new id ≡ None }
        ensures others { (x : Id) → same_id id x ≡ false → standing self.new x ≡ standing self.old x }
        ensures place { HasPlace self.new result.before }
        ensures room { room self.new ≡ room self.old }
    {
        let Some(at) = self.node(id) else {
            unreachable!();
        };
        let Some(before) = self.before_at(self.next_node(at)) else {
            unreachable!();
        };
        unlink(&mut self.nodes, at);
        let Held::Line { inst, .. } = hold(&mut self.nodes, at, Held::Gone) else {
            unreachable!();
        };
        Spot { inst, before }
    }

    /// Takes an instruction out and puts it elsewhere; gives where it stood.
    pub(crate) fn shift(&mut self, id: Id, before: Before) -> Before
        requires rings { IsRings self.old }
        requires there { IsSome (standing self.old id) }
        requires place { HasPlace self.old before }
        requires other { IsBeforeOther id before }
        ensures rings { IsRings self.new }
        ensures same { SameFrame self.old self.new }
        ensures contents { (inst : Inst) → option_map told_inst (standing self.old id) ≡ Some inst → (q : Place) → contents self.new q ≡ coming before inst q (each (removing id) (contents self.old q)) }
        ensures back { (inst : Inst) → option_map told_inst (standing self.old id) ≡ Some inst → (q : Place) → coming result inst q (each (removing id) (contents self.new q)) ≡ contents self.old q }
        ensures there { option_map told_inst (standing self.new id) ≡ option_map told_inst (standing self.old id) }
        ensures before { stood_before self.old id ≡ Some result }
        ensures place { HasPlace self.new result }
        ensures other { IsBeforeOther id result }
        ensures keeps { Keeps self.old self.new }
        ensures room { room self.old ≤ room self.new }
    {
        let spot = self.remove(id);
        self.insert(before, spot.inst);
        spot.before
    }

    /// Puts an instruction in the place of the one with its id.
    pub(crate) fn put(&mut self, inst: Inst) -> Inst
        requires rings { IsRings self.old }
        requires there { IsSome (standing self.old inst.id) }
        ensures rings { IsRings self.new }
        ensures same { SameFrame self.old self.new }
        ensures node { (x : Id) → node self.new x ≡ node self.old x }
        ensures contents { (q : Place) → contents self.new q ≡ each (putting inst) (contents self.old q) }
        ensures back { (q : Place) → each (putting result) (contents self.new q) ≡ contents self.old q }
        ensures was { option_map told_inst (standing self.old inst.id) ≡ Some result }
        ensures there { option_map told_inst (standing self.new inst.id) ≡ Some inst }
        ensures id { result.id ≡ inst.id }
        ensures room { room self.new ≡ room self.old }
    {
        let Some(at) = self.node(inst.id) else {
            unreachable!();
        };
        let Some(place) = self.place_at(at) else {
            unreachable!();
        };
        let Held::Line { inst: old, .. } = hold(&mut self.nodes, at, Held::Line { place, inst })
        else {
            unreachable!();
        };
        old
    }

    /// Sets an operand of an instruction.
    pub(crate) fn set_operand(&mut self, id: Id, slot: u32, to: Opd) -> Opd
        requires rings { IsRings self.old }
        requires there { IsSome (told_operand slot (standing self.old id)) }
        ensures rings { IsRings self.new }
        ensures same { SameFrame self.old self.new }
        ensures node { (x : Id) → node self.new x ≡ node self.old x }
        ensures contents { (q : Place) → contents self.new q ≡ each (setting id slot to) (contents self.old q) }
        ensures back { (q : Place) → each (setting id slot result) (contents self.new q) ≡ contents self.old q }
        ensures was { told_operand slot (standing self.old id) ≡ Some result }
        ensures there { told_operand slot (standing self.new id) ≡ Some to }
        ensures room { room self.new ≡ room self.old }
    {
        let Some(at) = self.node(id) else {
            unreachable!();
        };
        let Held::Line { place, inst } = hold(&mut self.nodes, at, Held::Gone) else {
            unreachable!();
        };
        let (inst, old) = with_operand(inst, slot, to);
        hold(&mut self.nodes, at, Held::Line { place, inst });
        old
    }
}

/// Gives an id its node; there is room.
fn note(table: &mut HashMap<Id, usize>, id: Id, at: usize)
    requires { 0 < spare table.old }
    ensures now { (q : Id) → get same_id table.new q ≡ cond (same_id id q) (Some at) (get same_id table.old q) }
    ensures room { spare table.old ≤ spare table.new + 1 }
{
    if table.insert(id, at).is_err() {
        unreachable!();
    }
}

/// An instruction with another operand in a slot, and the one before.
fn with_operand(inst: Inst, slot: u32, to: Opd) -> (Inst, Opd)
    requires { slot < length inst.opds }
    ensures now { result.0 ≡ change.with_operand inst slot to }
    ensures was { slice_get inst.opds slot ≡ Some result.1 }
{
    let mut inst = inst;
    let old = inst.opds.replace(slot as usize, to);
    (inst, old)
}
