//! `View` and `Sand`: what answers questions about a module, and what changes one.
//!
//! Contracts see a view as what it holds, the record `State` of `specs/Views.antt`: its own module, its notes, and what stood at
//! the save of the mark that is open. `StandsFor` says which modules that stands for. Want of memory is the only failure of a
//! question, and leaves the view as it was; a change that does not fit is refused and handed back.

ghost use Rattle.std.specs.Prelude.{◌≡◌, ℕ, ◌+◌, ◌≤◌, None, Some, [], IfOk, IfErr, OnOk, OnErr};
ghost use Rattle.ir_types.specs.declared.module.Module.{Module};
ghost use Rattle.ir_types.specs.Formed.{IsFormed};
ghost use Rattle.vx_view.specs.Answers.{answer};
ghost use Rattle.vx_view.specs.Changes.{Fits};
ghost use Rattle.vx_view.specs.UsesAfter.{cost};
ghost use Rattle.vx_view.specs.Views.{State, StandsFor, IsAskable, IsChangeable, IsMarkOf, Refuses, after_asking, after_save, after_apply, after_accept, after_revert, with_notes};

use crate::{Answer, ApplyRefusal, Change, Question, Reads};
use ir_types::OutOfMemory;

/// The token of a save, which names it until it is accepted or reverted.
#[derive(Debug, Drop)]
pub struct Mark {
    pub number: u64,
}

/// What answers questions about a module.
pub trait View {
    // What it holds.
    ghost seen: { Self → State };

    /// The answer to a question, which holds in every module that the view then stands for; where notes are open, it is noted.
    fn ask(&mut self, question: &Question) -> Result<Answer, OutOfMemory>
        requires { IsAskable (seen self.old) }
        ensures answers { IfOk result (λ a. (m : Module) → StandsFor (seen self.new) m → answer m question.now ≡ a) }
        ensures noted { IfOk result (λ a. seen self.new ≡ after_asking question.now a (seen self.old)) }
        ensures own { StandsFor (seen self.new) (seen self.new).contents.own }
        ensures err { OnErr result (seen self.new ≡ seen self.old) };
}

/// A view whose module can be changed, and brought back.
pub trait Sand: View {
    // How much changes may cost before they want memory.
    ghost spare: { Self → ℕ };

    /// Makes the spare at least so much.
    fn reserve(&mut self, cost: u64) -> Result<(), OutOfMemory>
        ensures same { Self.seen self.new ≡ Self.seen self.old }
        ensures room { OnOk result (cost ≤ spare self.new) };

    /// Opens a mark.
    fn save(&mut self) -> Mark
        requires { (Self.seen self.old).saved ≡ None }
        ensures now { Self.seen self.new ≡ after_save result.number (Self.seen self.old) }
        ensures room { spare self.old ≤ spare self.new };

    /// Makes a change; a refusal hands it back, and nothing was changed then.
    fn apply(&mut self, change: Change) -> Result<(), ApplyRefusal>
        requires { IsChangeable (Self.seen self.old) }
        ensures now { OnOk result (Self.seen self.new ≡ after_apply change (Self.seen self.old)) }
        ensures fits { OnOk result (Fits (Self.seen self.old).contents.own change) }
        ensures room { OnOk result (cost change ≤ spare self.old → spare self.old ≤ spare self.new + cost change) }
        ensures err { OnErr result (Self.seen self.new ≡ Self.seen self.old) }
        ensures refused { IfErr result (Refuses (Self.seen self.old).contents.own (spare self.old) change) };

    /// Closes the open mark, and keeps what was changed.
    fn accept(&mut self, mark: Mark)
        requires marked { IsMarkOf mark.number (Self.seen self.old).saved }
        requires closed { (Self.seen self.old).notes ≡ None }
        ensures { Self.seen self.new ≡ after_accept (Self.seen self.old) };

    /// Closes the open mark, and brings back module, order and use lists as they were at its save.
    fn revert(&mut self, mark: Mark)
        requires { IsMarkOf mark.number (Self.seen self.old).saved }
        ensures { Self.seen self.new ≡ after_revert (Self.seen self.old) };

    /// Opens empty notes.
    fn note(&mut self)
        requires closed { (Self.seen self.old).notes ≡ None }
        requires unmarked { (Self.seen self.old).saved ≡ None }
        requires formed { IsFormed (Self.seen self.old).contents.own }
        ensures { Self.seen self.new ≡ with_notes (Some []) (Self.seen self.old) };

    /// Closes the notes, and gives the questions that were asked since they were opened, each once, in order of first asking.
    fn noted(&mut self) -> Reads
        requires unmarked { (Self.seen self.old).saved ≡ None }
        requires opened { ((Self.seen self.old).notes ≡ None) → ⊥ }
        ensures was { (Self.seen self.old).notes ≡ Some result }
        ensures now { Self.seen self.new ≡ with_notes None (Self.seen self.old) };
}
