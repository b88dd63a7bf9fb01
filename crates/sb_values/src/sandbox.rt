//! `Sandbox`: a module with its use lists.
//!
//! Contracts see both (`contents`), the `state` that undoing brings back, and the `spare`: how much changes may cost before they want memory.
//! Its parts agree at all times: each id stands once, and each use list has the slots of its value. `lift` is the way in, `lower` the way out.

ghost use Rattle.std.specs.Prelude.{[], ◌≡◌, ◌≤◌, ◌+◌, IsOk, IsTrue, IsFalse, IfOk, IfErr, OnOk, OnErr};
ghost use Rattle.ir_types.specs.Formed.{IsFormed};
ghost use Rattle.vx_view.specs.Answers.{answer};
ghost use Rattle.vx_view.specs.declared.question.Question.TheVariants as ask;
ghost use Rattle.vx_view.specs.Changes.{Fits};
ghost use Rattle.vx_view.specs.Uses.{IsExact, lifted};
ghost use Rattle.vx_view.specs.UsesAfter.{changed, cost};
ghost use Rattle.vx_view.specs.Views.{Refuses};
ghost use Rattle.sb_values.specs.Sandboxes.{state, contents, spare};
ghost use Rattle.sb_values.specs.Undoing.{undone, CanUndo, KeepsPlaces};
ghost use Rattle.sb_values.specs.Answering.{as_answer, id_in};

use crate::parts::Parts;
use crate::{Found, Undo};
use ir_types::{Id, Module, OutOfMemory, Uses};
use sb_lines::Lines;
use sb_uses::Slots;
use std::alloc::Global;
use std::marker::Model;
use vx_view::{ApplyRefusal, Change, Question};

/// A module that can be changed, and changed back.
#[derive(Drop)]
pub struct Sandbox {
    parts: Parts,
}

impl Model for Sandbox {
    ghost use Rattle.sb_values.specs.declared.parts.Parts.{Parts};
    ghost use Rattle.sb_values.specs.contracts.parts.Parts.{the_row};
    ghost use Rattle.sb_values.specs.Sandboxes.{state, IsWhole};

    ghost Value = { Parts };

    ghost coded = { the_row.coded };

    ghost view = { λ s. s.parts };

    ghost invariant = { λ s. IsWhole (state s.parts) };
}

/// What a change costs.
fn cost_of(change: &Change) -> u64
    ensures { result ≡ cost change.now }
{
    match change {
        Change::Insert { inst, .. } | Change::Replace { inst } => inst.opds.as_slice().len() as u64
            + 1,
        Change::SetOperand { .. } => 2,
        Change::Remove { .. } | Change::Move { .. } => 1,
    }
}

impl Sandbox {
    /// A module as it was read. A module of 2^32 slots or more is answered as for want of memory.
    pub fn lift(alloc: Global, read: &Module) -> Result<Sandbox, OutOfMemory>
        requires { IsFormed read.now }
        ensures { IfOk result (λ s. contents s ≡ record { own = read.now; lists = lifted read.now }) }
    {
        let lines = Lines::lift(alloc, read)?;
        let mut slots = Slots::lift(alloc, read)?;
        slots.reserve(1)?;
        Ok(Sandbox {
            parts: Parts { lines, slots },
        })
    }

    /// The module as it now is.
    pub fn lower(&self) -> Result<Module, OutOfMemory>
        ensures { IfOk result (λ m. m ≡ (contents self.now).own) }
    {
        self.parts.lines.lower()
    }

    /// Makes the spare at least so much.
    pub fn reserve(&mut self, cost: u64) -> Result<(), OutOfMemory>
        ensures same { state self.new ≡ state self.old }
        ensures keeps { KeepsPlaces self.old self.new }
        ensures ok { OnOk result (cost ≤ spare self.new) }
        ensures had_room { cost ≤ spare self.old → IsOk result }
        ensures room { spare self.old ≤ spare self.new }
    {
        self.parts.reserve(cost)
    }

    /// Whether a change fits.
    pub fn fits(&self, change: &Change) -> bool
        ensures yes { IsTrue result → Fits (contents self.now).own change.now }
        ensures no { IsFalse result → Fits (contents self.now).own change.now → ⊥ }
    {
        self.parts.fits(change)
    }

    /// Makes a change, and gives what takes it back; a refusal hands the change back, and nothing was changed then. Within the spare no
    /// memory is wanted.
    pub fn edit(&mut self, change: Change) -> Result<Undo, ApplyRefusal>
        ensures now { OnOk result (contents self.new ≡ changed change (contents self.old)) }
        ensures fits { OnOk result (Fits (contents self.old).own change) }
        ensures back { IfOk result (λ undo. undone undo (state self.new) ≡ state self.old) }
        ensures can { IfOk result (λ undo. CanUndo undo self.new) }
        ensures keeps { KeepsPlaces self.old self.new }
        ensures room { OnOk result (spare self.old ≤ spare self.new + cost change) }
        ensures err { OnErr result (state self.new ≡ state self.old) }
        ensures refused { IfErr result (Refuses (contents self.old).own (spare self.old) change) }
    {
        if !self.parts.fits(&change) {
            return Err(ApplyRefusal::WrongPlace(change));
        }
        if self.parts.reserve(cost_of(&change)).is_err() {
            return Err(ApplyRefusal::OutOfMemory(change));
        }
        Ok(self.parts.make(change))
    }

    /// Takes back the change that left this state: module, order and use lists are as they were before it.
    pub fn undo(&mut self, undo: Undo)
        requires { CanUndo undo self.old }
        ensures now { state self.new ≡ undone undo (state self.old) }
        ensures keeps { KeepsPlaces self.old self.new }
    {
        self.parts.take_back(undo);
    }

    /// Lets go of what was kept, so that no change made so far can be undone any more.
    pub fn settle(&mut self)
        ensures now { contents self.new ≡ contents self.old }
        ensures gone { (state self.new).stock.kept ≡ [] }
        ensures room { spare self.old ≤ spare self.new }
    {
        self.parts.slots.forget();
    }

    /// The uses of a value, newest first: each slot that holds it, once.
    pub fn uses(&self, value: Id) -> Result<Uses, OutOfMemory>
        ensures list { IfOk result (λ uses. uses ≡ (contents self.now).lists value) }
        ensures exact { IsExact (contents self.now).own (contents self.now).lists }
    {
        self.parts.slots.list(value)
    }

    /// What stands for an id.
    pub fn found(&self, id: Id) -> Found<'_>
        ensures { as_answer result ≡ answer (contents self.now).own (ask.Inst id) }
    {
        self.parts.found(id)
    }

    /// The instruction that a question for a neighbour or a first instruction asks for; none for other questions.
    pub fn at(&self, question: &Question) -> Option<Id>
        ensures { result ≡ id_in (answer (contents self.now).own question.now) }
    {
        self.parts.at(question)
    }
}
