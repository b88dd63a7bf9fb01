//! `Track`: a sandbox with what takes back its changes since the save, and with notes.
//!
//! Its methods are those of `Tracked`, with what holds of it at all times (`IsTracked`) written out. Without a mark there is nothing to take
//! back, and a change is made for good.

ghost use Rattle.std.specs.Prelude.{◌≡◌, ◌≤◌, ◌<◌, ◌+◌, [], ◌∷◌, ◌++◌, length, vec_capacity, None, Some, IsSome, IfOk, IfErr, OnOk, OnErr};
ghost use Rattle.ir_types.specs.declared.module.Module.{Module};
ghost use Rattle.ir_types.specs.Formed.{IsFormed};
ghost use Rattle.vx_view.specs.Answers.{answer};
ghost use Rattle.vx_view.specs.Changes.{Fits};
ghost use Rattle.vx_view.specs.UsesAfter.{cost};
ghost use Rattle.vx_view.specs.Views.{StandsFor, IsAskable, IsChangeable, IsMarkOf, Refuses, notes_after, after_asking, after_save, after_apply, after_accept, after_revert, with_notes};
ghost use Rattle.sb_values.specs.Sandboxes.{state, contents};
ghost use Rattle.sb_track.specs.Tracking.{seen, spare, base, IsTracked, IsLike};

use crate::asking::answer_of;
use crate::notes::Notes;
use ir_types::OutOfMemory;
use sb_values::{Sandbox, Undo};
use std::alloc::Global;
use vx_view::{Answer, ApplyRefusal, Change, Question, Reads};

/// A sandbox, and what was done with it.
#[derive(Drop)]
pub(crate) struct Track {
    pub(crate) sand: Sandbox,
    /// What takes back the changes since the save, the newest last.
    pub(crate) undos: Vec<Undo>,
    /// The number of the open mark.
    pub(crate) mark: Option<u64>,
    /// What was asked since notes were opened.
    pub(crate) notes: Option<Notes>,
}

/// Puts what takes a change back at the end; there is room.
fn keep(undos: &mut Vec<Undo>, undo: Undo)
    requires { length undos.old.items < vec_capacity undos.old }
    ensures items { undos.new.items ≡ undos.old.items ++ undo ∷ [] }
    ensures room { vec_capacity undos.old ≤ vec_capacity undos.new }
{
    match undos.push(undo) {
        Ok(()) => (),
        Err(_) => unreachable!(),
    }
}

impl Track {
    /// The answer to a question, which is noted where notes are open.
    pub(crate) fn ask(&mut self, alloc: Global, question: &Question) -> Result<Answer, OutOfMemory>
        requires tracked { IsTracked self.old }
        requires askable { IsAskable (seen self.old) }
        ensures tracked { IsTracked self.new }
        ensures answers { IfOk result (λ a. (m : Module) → StandsFor (seen self.new) m → answer m question.now ≡ a) }
        ensures noted { IfOk result (λ a. seen self.new ≡ after_asking question.now a (seen self.old)) }
        ensures own { StandsFor (seen self.new) (seen self.new).contents.own }
        ensures err { OnErr result (seen self.new ≡ seen self.old) }
    {
        let answer = answer_of(alloc, &self.sand, question)?;
        self.note_down(alloc, question, &answer)?;
        Ok(answer)
    }

    /// Notes a question with its answer, where notes are open.
    fn note_down(
        &mut self,
        alloc: Global,
        question: &Question,
        answer: &Answer,
    ) -> Result<(), OutOfMemory>
        ensures sand { self.new.sand ≡ self.old.sand }
        ensures undos { self.new.undos ≡ self.old.undos }
        ensures mark { self.new.mark ≡ self.old.mark }
        ensures ok { OnOk result (self.new.notes ≡ notes_after question.now answer.now self.old.notes) }
        ensures err { OnErr result (self.new.notes ≡ self.old.notes) }
    {
        match &mut self.notes {
            Some(notes) => notes.note(alloc, question, answer),
            None => Ok(()),
        }
    }

    /// Makes the spare at least so much.
    pub(crate) fn reserve(&mut self, cost: u64) -> Result<(), OutOfMemory>
        ensures like { IsLike self.old self.new }
        ensures room { OnOk result (cost ≤ spare self.new) }
    {
        self.sand.reserve(cost)?;
        self.undos.reserve(cost as usize)
    }

    /// Opens a mark.
    pub(crate) fn save(&mut self, mark: u64)
        requires tracked { IsTracked self.old }
        requires unmarked { (seen self.old).saved ≡ None }
        ensures tracked { IsTracked self.new }
        ensures now { seen self.new ≡ after_save mark (seen self.old) }
        ensures room { spare self.old ≤ spare self.new }
    {
        self.mark = Some(mark);
    }

    /// Makes a change.
    pub(crate) fn apply(&mut self, change: Change) -> Result<(), ApplyRefusal>
        requires tracked { IsTracked self.old }
        requires changeable { IsChangeable (seen self.old) }
        ensures tracked { IsTracked self.new }
        ensures now { OnOk result (seen self.new ≡ after_apply change (seen self.old)) }
        ensures fits { OnOk result (Fits (seen self.old).contents.own change) }
        ensures room { OnOk result (cost change ≤ spare self.old → spare self.old ≤ spare self.new + cost change) }
        ensures err { OnErr result (seen self.new ≡ seen self.old) }
        ensures refused { IfErr result (Refuses (seen self.old).contents.own (spare self.old) change) }
    {
        match self.mark {
            Some(_) => self.apply_marked(change),
            None => self.apply_for_good(change),
        }
    }

    /// Makes a change, and keeps what takes it back.
    fn apply_marked(&mut self, change: Change) -> Result<(), ApplyRefusal>
        requires tracked { IsTracked self.old }
        requires marked { IsSome self.old.mark }
        ensures tracked { IsTracked self.new }
        ensures now { OnOk result (seen self.new ≡ after_apply change (seen self.old)) }
        ensures fits { OnOk result (Fits (seen self.old).contents.own change) }
        ensures room { OnOk result (cost change ≤ spare self.old → spare self.old ≤ spare self.new + cost change) }
        ensures err { OnErr result (seen self.new ≡ seen self.old) }
        ensures refused { IfErr result (Refuses (seen self.old).contents.own (spare self.old) change) }
    {
        if self.undos.reserve(1).is_err() {
            return Err(self.refusal(change));
        }
        let undo = self.sand.edit(change)?;
        keep(&mut self.undos, undo);
        Ok(())
    }

    /// Makes a change that stays.
    fn apply_for_good(&mut self, change: Change) -> Result<(), ApplyRefusal>
        requires tracked { IsTracked self.old }
        requires unmarked { self.old.mark ≡ None }
        requires unnoted { self.old.notes ≡ None }
        ensures tracked { IsTracked self.new }
        ensures now { OnOk result (seen self.new ≡ after_apply change (seen self.old)) }
        ensures fits { OnOk result (Fits (seen self.old).contents.own change) }
        ensures room { OnOk result (cost change ≤ spare self.old → spare self.old ≤ spare self.new + cost change) }
        ensures err { OnErr result (seen self.new ≡ seen self.old) }
        ensures refused { IfErr result (Refuses (seen self.old).contents.own (spare self.old) change) }
    {
        self.sand.edit(change)?;
        self.sand.settle();
        Ok(())
    }

    /// Why a change is refused for which there is no room.
    fn refusal(&self, change: Change) -> ApplyRefusal
        requires { spare self.now ≡ 0 }
        ensures { Refuses (seen self.now).contents.own (spare self.now) change result }
    {
        if self.sand.fits(&change) {
            ApplyRefusal::OutOfMemory(change)
        } else {
            ApplyRefusal::WrongPlace(change)
        }
    }

    /// Closes the mark, and keeps what was changed.
    pub(crate) fn accept(&mut self)
        requires tracked { IsTracked self.old }
        requires unnoted { (seen self.old).notes ≡ None }
        ensures tracked { IsTracked self.new }
        ensures now { seen self.new ≡ after_accept (seen self.old) }
    {
        self.undos.clear();
        self.mark = None;
        self.sand.settle();
    }

    /// Closes the mark, and brings everything back as it was at the save.
    pub(crate) fn revert(&mut self)
        requires tracked { IsTracked self.old }
        requires marked { IsSome self.old.mark }
        ensures tracked { IsTracked self.new }
        ensures now { seen self.new ≡ after_revert (seen self.old) }
    {
        self.unwind();
        self.mark = None;
    }

    /// Takes the changes since the save back, the newest first.
    fn unwind(&mut self)
        requires { IsTracked self.old }
        ensures now { state self.new.sand ≡ base self.old }
        ensures undos { self.new.undos.items ≡ [] }
        ensures mark { self.new.mark ≡ self.old.mark }
        ensures notes { self.new.notes ≡ self.old.notes }
    {
        while let Some(undo) = self.undos.pop() {
            self.sand.undo(undo);
        }
    }

    /// Opens empty notes.
    pub(crate) fn note(&mut self, alloc: Global)
        requires tracked { IsTracked self.old }
        requires unmarked { (seen self.old).saved ≡ None }
        requires formed { IsFormed (seen self.old).contents.own }
        ensures tracked { IsTracked self.new }
        ensures now { seen self.new ≡ with_notes (Some []) (seen self.old) }
    {
        self.notes = Some(Notes::new(alloc));
    }

    /// Closes the notes.
    pub(crate) fn noted(&mut self) -> Reads
        requires tracked { IsTracked self.old }
        requires opened { ((seen self.old).notes ≡ None) → ⊥ }
        ensures tracked { IsTracked self.new }
        ensures was { (seen self.old).notes ≡ Some result }
        ensures now { seen self.new ≡ with_notes None (seen self.old) }
    {
        match self.notes.take() {
            Some(notes) => notes.into_reads(),
            None => unreachable!(),
        }
    }
}
