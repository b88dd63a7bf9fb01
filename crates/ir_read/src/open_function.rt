//! `OpenFunction`: the function that is being read, while all its lines stand where they may; `Verdict`: what a line is in it.
//!
//! A header opens one, each line adds to it. A header whose numbered parameters are out of order is misplaced.

ghost use Rattle.std.specs.Prelude.{◌≡◌, OnOk, IfOk, ℕ, List, Option, Result};
ghost use Rattle.ir_read.specs.Answers.{Gives, Refuses};
ghost use Rattle.ir_read.specs.Function as function;
ghost use Rattle.ir_read.specs.Steps as steps;
ghost use Rattle.ir_read.specs.declared.position.Position.{Position};
ghost use Rattle.ir_read.specs.declared.progress.Done.{Done};
ghost use Rattle.ir_read.specs.declared.refusal.ReadRefusal.{ReadRefusal};

use crate::ReadRefusal;
use crate::function::after_line;
use crate::numbers::after_params;
use crate::outlook::Outlook;
use crate::position::Position;
use ir_line::{Body, Head, Line, Numbered};
use std::alloc::{AllocError, Global};

/// A function whose closing brace has not come.
#[derive(Drop)]
pub(crate) struct OpenFunction {
    /// The number of its header's line.
    pub(crate) line: u32,
    pub(crate) head: Head,
    pub(crate) body: Body,
    /// Where the next line stands.
    pub(crate) at: Position,
}

/// What a line is in a function of which all lines before stand where they may.
#[derive(Clone, Copy)]
pub(crate) enum Verdict {
    /// It stands where it may.
    Stands,
    /// It is the brace that ends the function.
    Ends,
    /// It is misplaced.
    Misplaced,
    /// It is outside the profile.
    Foreign,
}

impl OpenFunction {
    /// The function that a header opens.
    #[tactic(auto, unfolding(crate::specs::Function::opened_by))]
    pub(crate) fn new(alloc: Global, line: u32, head: Head) -> Result<OpenFunction, ReadRefusal>
        ensures { Gives (λ fresh. fresh) result (function.opened_by line head) }
    {
        let next = after_params(line, head.params.as_slice())?;
        Ok(OpenFunction {
            line,
            head,
            body: Body::new(alloc),
            at: Position::start(next),
        })
    }

    /// Takes a line of the function, where it has a form.
    #[tactic(auto, unfolding(crate::specs::Steps::sound_step))]
    pub(crate) fn take(
        &mut self,
        known: &Outlook,
        line: u32,
        form: Option<Line>,
    ) -> Result<Verdict, ReadRefusal>
        ensures { (done : Done) → (name : Option (List ℕ)) → Gives (steps.taken line done name self.new) result (steps.sound_step known.now line done name self.old form) }
    {
        let Some(form) = form else {
            return Ok(Verdict::Foreign);
        };
        match after_line(&known.names, line, self.at, &form) {
            Ok(at) => Ok(self.place(line, form, at)?),
            Err(refusal) => self.refuse(line, &form, refusal),
        }
    }

    /// Takes a line that stands where it may.
    fn place(&mut self, line: u32, form: Line, at: Position) -> Result<Verdict, AllocError>
        ensures { (done : Done) → (name : Option (List ℕ)) → IfOk result (λ verdict. steps.taken line done name self.new verdict ≡ steps.added line done name self.old form at) }
    {
        match form {
            Line::Empty => Ok(Verdict::Stands),
            Line::Close => Ok(Verdict::Ends),
            _ => {
                self.add(line, form, at)?;
                Ok(Verdict::Stands)
            }
        }
    }

    /// Looks at a line that may not stand where it does: it is outside the profile or misplaced.
    fn refuse(
        &mut self,
        line: u32,
        form: &Line,
        refusal: ReadRefusal,
    ) -> Result<Verdict, ReadRefusal>
        ensures { (done : Done) → (name : Option (List ℕ)) → (said : Result Position ReadRefusal) → Refuses refusal said → Gives (steps.taken line done name self.new) result (steps.judged line done name self.old form.now said) }
    {
        match refusal {
            ReadRefusal::OutOfMemory => Err(ReadRefusal::OutOfMemory),
            ReadRefusal::Misplaced { .. } => self.misplace(line, form),
            _ => Ok(Verdict::Foreign),
        }
    }

    /// Adds a line with the position after it.
    #[tactic(auto, unfolding(crate::specs::Function::with_line))]
    fn add(&mut self, line: u32, form: Line, at: Position) -> Result<(), AllocError>
        ensures { OnOk result (self.new ≡ function.with_line self.old line form at) }
    {
        self.body.push(Numbered { line, form })?;
        self.at = at;
        Ok(())
    }

    /// Goes on after a line that is misplaced, unless it is the brace.
    fn misplace(&mut self, line: u32, form: &Line) -> Result<Verdict, ReadRefusal>
        ensures { (done : Done) → (name : Option (List ℕ)) → Gives (steps.taken line done name self.new) result (steps.misplaced line done name self.old form.now) }
    {
        if let Line::Close = form {
            return Err(ReadRefusal::Misplaced { line });
        }
        self.at = self.at.passed_over(form)?;
        Ok(Verdict::Misplaced)
    }
}
