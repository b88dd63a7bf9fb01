//! `Progress`: what was read of a text so far.
//!
//! `step` adds a line, or refuses it as outside the profile or misplaced; `ended` gives the draft at the end of the text.
//!
//! A line that is outside the profile makes its function opaque, and so a misplaced line is kept in mind up to the brace of its function.

ghost use Rattle.std.specs.Prelude.{◌≡◌, ◌-◌, Some, None, Ok, OnOk, IfOk, ℕ, suc, take, true, List, Option};
ghost use Rattle.ir_read.specs.Answers.{Gives};
ghost use Rattle.ir_read.specs.Draft as draft;
ghost use Rattle.ir_read.specs.Lines.{lines_of};
ghost use Rattle.ir_read.specs.Opaque as opaque;
ghost use Rattle.ir_read.specs.Steps as steps;
ghost use Rattle.ir_read.specs.declared.open_function.OpenFunction.{OpenFunction};
ghost use Rattle.ir_read.specs.declared.progress.Current.TheVariants as current;

use crate::ReadRefusal;
use crate::function::is_foreign_line;
use crate::joined::joined_lines;
use crate::open_function::{OpenFunction, Verdict};
use crate::outlook::Outlook;
use crate::position::Position;
use crate::size::Size;
use ir_line::{Body, Draft, DraftItem, DraftItems, Head, Kept, Line};
use ir_types::Bytes;
use std::alloc::{AllocError, Global};
use std::mem;

/// What was read, but for a function that is open.
#[derive(Drop)]
pub(crate) struct Done {
    pub(crate) items: DraftItems,
    pub(crate) size: Size,
}

/// Where a function begins that may be opaque.
#[derive(Drop)]
pub(crate) struct Origin {
    /// The number of its header's line.
    pub(crate) line: u32,
    pub(crate) name: Option<Bytes>,
}

/// A function with a misplaced line.
#[derive(Drop)]
pub(crate) struct Faulty {
    pub(crate) origin: Origin,
    /// Where the next line stands.
    pub(crate) at: Position,
    /// The number of the first misplaced line.
    pub(crate) line: u32,
}

/// What stands open.
#[derive(Drop)]
pub(crate) enum Current {
    /// No function.
    Outside,
    /// A function of which all lines so far stand where they may.
    Sound {
        name: Option<Bytes>,
        function: OpenFunction,
    },
    /// A function with a misplaced line, and none yet that is outside the profile.
    Misplaced(Faulty),
    /// An opaque function.
    Opaque(Origin),
}

/// What was read of a text.
#[derive(Drop)]
pub(crate) struct Progress {
    pub(crate) done: Done,
    pub(crate) current: Current,
}

impl Done {
    /// Adds a kept line.
    #[tactic(auto, unfolding(crate::specs::Draft::with_kept))]
    fn add_kept(&mut self, line: u32, kept: Kept) -> Result<(), AllocError>
        ensures { OnOk result (self.new ≡ draft.with_kept self.old line kept) }
    {
        self.items.push(DraftItem::Kept { line, kept })?;
        Ok(())
    }

    /// Adds an opaque function.
    #[tactic(auto, unfolding(crate::specs::Draft::with_opaque))]
    fn add_opaque(&mut self, line: u32, name: Option<Bytes>, text: Bytes) -> Result<(), AllocError>
        ensures { OnOk result (self.new ≡ draft.with_opaque self.old line name text) }
    {
        self.items.push(DraftItem::Opaque { line, name, text })?;
        Ok(())
    }

    /// Adds a function that its brace has closed.
    #[tactic(auto, unfolding(crate::specs::Draft::closed))]
    fn add_function(&mut self, function: OpenFunction) -> Result<(), AllocError>
        ensures { OnOk result (self.new ≡ draft.closed self.old function) }
    {
        self.size = self.size.with(&function)?;
        let OpenFunction {
            line,
            head,
            body,
            at: _,
        } = function;
        self.items.push(DraftItem::Func {
            line,
            head,
            body: fitted(body),
        })?;
        Ok(())
    }
}

/// A body that has no more room than it needs, as most functions are short and there may be many.
fn fitted(body: Body) -> Body
    ensures { result ≡ body }
{
    let mut lines = body.into_vec();
    lines.shrink_to_fit();
    Body::from_vec(lines)
}

/// What a header opens.
#[tactic(auto, unfolding(crate::specs::Steps::define_step))]
fn opened(
    alloc: Global,
    known: &Outlook,
    line: u32,
    name: Option<Bytes>,
    head: Option<Head>,
) -> Result<Current, ReadRefusal>
    ensures { (done : Done) → Gives (λ found. record { done = done; current = found }) result (steps.define_step known.now line done name head) }
{
    if known.other_pointers {
        return Ok(Current::Opaque(Origin { line, name }));
    }
    let Some(head) = head else {
        return Ok(Current::Opaque(Origin { line, name }));
    };
    match OpenFunction::new(alloc, line, head) {
        Ok(function) => Ok(Current::Sound { name, function }),
        Err(ReadRefusal::OutOfMemory) => Err(ReadRefusal::OutOfMemory),
        Err(_) => Ok(Current::Misplaced(Faulty {
            origin: Origin { line, name },
            at: Position::start(0),
            line,
        })),
    }
}

impl Faulty {
    /// Goes on after a line of this form; answers whether it is outside the profile.
    fn pass(&mut self, known: &Outlook, form: &Line) -> Result<bool, ReadRefusal>
        ensures { (done : Done) → Gives (steps.faulty_taken done self.new) result (steps.faulty_step known.now done self.old (Some form.now)) }
    {
        if let Line::Close = form {
            return Err(ReadRefusal::Misplaced { line: self.line });
        }
        if is_foreign_line(&known.names, self.at, form) {
            return Ok(true);
        }
        self.at = self.at.passed_over(form)?;
        Ok(false)
    }

    /// Takes a line of the function, where it has a form; answers whether it is outside the profile.
    fn take(&mut self, known: &Outlook, form: &Option<Line>) -> Result<bool, ReadRefusal>
        ensures { (done : Done) → Gives (steps.faulty_taken done self.new) result (steps.faulty_step known.now done self.old form.now) }
    {
        match form {
            None => Ok(true),
            Some(form) => self.pass(known, form),
        }
    }
}

/// Whether a line is the brace that ends a function.
fn is_close(form: &Option<Line>) -> bool
    ensures { result ≡ steps.is_close form.now }
{
    match form {
        Some(Line::Close) => true,
        _ => false,
    }
}

impl Progress {
    /// Before the first line.
    pub(crate) fn new(alloc: Global) -> Progress
        ensures { result ≡ steps.outside draft.nothing_done }
    {
        Progress {
            done: Done {
                items: DraftItems::new(alloc),
                size: Size::new(),
            },
            current: Current::Outside,
        }
    }

    /// Whether the next line stands in a function.
    pub(crate) fn is_inside(&self) -> bool
        ensures { result ≡ steps.is_inside self.now.current }
    {
        match &self.current {
            Current::Outside => false,
            _ => true,
        }
    }

    /// The open function is closed.
    fn close(&mut self) -> Result<(), AllocError>
        ensures { (name : Option (List ℕ)) → (o : OpenFunction) → self.old.current ≡ current.Sound name o → OnOk result (self.new ≡ steps.outside (draft.closed self.old.done o)) }
    {
        if let Current::Sound { name: _, function } = mem::replace(
            &mut self.current,
            Current::Outside,
        ) {
            self.done.add_function(function)?;
        }
        Ok(())
    }

    /// The open function has a misplaced line.
    fn turn_faulty(&mut self, line: u32)
        ensures { (name : Option (List ℕ)) → (o : OpenFunction) → self.old.current ≡ current.Sound name o → self.new ≡ steps.faulty self.old.done (steps.began o.line name) o.at line }
    {
        if let Current::Sound { name, function } = mem::replace(
            &mut self.current,
            Current::Outside,
        ) {
            self.current = Current::Misplaced(Faulty {
                origin: Origin {
                    line: function.line,
                    name,
                },
                at: function.at,
                line,
            });
        }
    }

    /// The open function is opaque.
    fn turn_opaque(&mut self)
        ensures sound { (name : Option (List ℕ)) → (o : OpenFunction) → self.old.current ≡ current.Sound name o → self.new ≡ steps.opaque self.old.done (steps.began o.line name) }
        ensures faulty { (f : Faulty) → self.old.current ≡ current.Misplaced f → self.new ≡ steps.opaque self.old.done f.origin }
    {
        match mem::replace(&mut self.current, Current::Outside) {
            Current::Sound { name, function } => {
                self.current = Current::Opaque(Origin {
                    line: function.line,
                    name,
                });
            }
            Current::Misplaced(faulty) => self.current = Current::Opaque(faulty.origin),
            _ => {}
        }
    }

    /// The open opaque function ends in the line `line`; the text is from its header on.
    fn end_opaque(&mut self, alloc: Global, line: u32, from: &[u8]) -> Result<(), AllocError>
        ensures { (f : Origin) → self.old.current ≡ current.Opaque f → OnOk result (self.new ≡ steps.outside (draft.with_opaque self.old.done f.line f.name (opaque.joined (take (suc (line - f.line)) (lines_of from.now))))) }
    {
        if let Current::Opaque(origin) = mem::replace(&mut self.current, Current::Outside) {
            let text = joined_lines(alloc, from, line.saturating_sub(origin.line))?;
            self.done.add_opaque(origin.line, origin.name, text)?;
        }
        Ok(())
    }

    /// A line outside functions.
    fn outside_step(
        &mut self,
        alloc: Global,
        known: &Outlook,
        line: u32,
        form: Option<Line>,
    ) -> Result<(), ReadRefusal>
        requires { self.old.current ≡ current.Outside }
        ensures { Gives (λ _. self.new) result (steps.outside_step known.now line self.old.done form) }
    {
        match form {
            Some(Line::Empty) => Ok(()),
            Some(Line::Kept(kept)) => {
                self.done.add_kept(line, kept)?;
                Ok(())
            }
            Some(Line::Define { name, head }) => {
                self.current = opened(alloc, known, line, name, head)?;
                Ok(())
            }
            _ => Err(ReadRefusal::NotALine { line }),
        }
    }

    /// What a line of a function has been found to be makes of it.
    fn settle(&mut self, line: u32, verdict: Verdict) -> Result<(), AllocError>
        ensures { (name : Option (List ℕ)) → (o : OpenFunction) → self.old.current ≡ current.Sound name o → OnOk result (self.new ≡ steps.taken line self.old.done name o verdict) }
    {
        match verdict {
            Verdict::Stands => Ok(()),
            Verdict::Ends => self.close(),
            Verdict::Misplaced => {
                self.turn_faulty(line);
                Ok(())
            }
            Verdict::Foreign => {
                self.turn_opaque();
                Ok(())
            }
        }
    }

    /// A line of a function that is opaque or has a misplaced line.
    fn passed_step(
        &mut self,
        alloc: Global,
        known: &Outlook,
        line: u32,
        from: &[u8],
        form: &Option<Line>,
    ) -> Result<(), ReadRefusal>
        ensures { steps.is_passed self.old.current ≡ true → Gives (λ _. self.new) result (steps.line_step known.now line (lines_of from.now) self.old form.now) }
    {
        match &mut self.current {
            Current::Misplaced(faulty) => {
                if faulty.take(known, form)? {
                    self.turn_opaque();
                }
                Ok(())
            }
            Current::Opaque(_) => {
                if is_close(form) {
                    self.end_opaque(alloc, line, from)?;
                }
                Ok(())
            }
            _ => Ok(()),
        }
    }

    /// The same, where the line's form is not wanted any more.
    fn passed_line(
        &mut self,
        alloc: Global,
        known: &Outlook,
        line: u32,
        from: &[u8],
        form: Option<Line>,
    ) -> Result<(), ReadRefusal>
        ensures { steps.is_passed self.old.current ≡ true → Gives (λ _. self.new) result (steps.line_step known.now line (lines_of from.now) self.old form) }
    {
        self.passed_step(alloc, known, line, from, &form)
    }

    /// One more line, with its form if it has one; the text is that from the header of the open function on.
    pub(crate) fn step(
        &mut self,
        alloc: Global,
        known: &Outlook,
        line: u32,
        from: &[u8],
        form: Option<Line>,
    ) -> Result<(), ReadRefusal>
        ensures { Gives (λ _. self.new) result (steps.line_step known.now line (lines_of from.now) self.old form) }
    {
        match &mut self.current {
            Current::Outside => self.outside_step(alloc, known, line, form),
            Current::Sound { name: _, function } => {
                let verdict = function.take(known, line, form)?;
                self.settle(line, verdict)?;
                Ok(())
            }
            Current::Misplaced(_) | Current::Opaque(_) => {
                self.passed_line(alloc, known, line, from, form)
            }
        }
    }

    /// The draft at the end of the text, where `line` is the number of lines and one more.
    pub(crate) fn ended(self, line: u32) -> Result<Draft, ReadRefusal>
        ensures { Gives (λ whole. whole) result (steps.at_end line self.done self.current) }
    {
        match &self.current {
            Current::Outside => {}
            Current::Misplaced(faulty) => {
                return Err(ReadRefusal::Misplaced { line: faulty.line });
            }
            _ => return Err(ReadRefusal::Misplaced { line }),
        }
        match self.done.size.passed() {
            Some(which) => Err(ReadRefusal::Limit { which }),
            None => Ok(Draft {
                items: self.done.items,
            }),
        }
    }
}
