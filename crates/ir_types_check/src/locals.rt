//! `Locals`: what the names of a function mean.
//!
//! The entry point is `locals_of`. It fails at the first name that is defined twice, or for want of memory.

ghost use Rattle.std.specs.Prelude.{◌≡◌, []};
ghost use Rattle.std.specs.Fmt.{decimal};
ghost use Rattle.ir_types_check.specs.Answers.{Gives};
ghost use Rattle.ir_types_check.specs.Locals as locals;

use crate::ResolveRefusal;
use crate::outline::At;
use crate::scope::Scope;
use ir_line::{Head, Line, Numbered, Stmt};
use ir_types::{Param, Ty};
use itoa::Buffer;
use std::alloc::Global;

/// What a local name means.
#[derive(Clone, Copy)]
pub(crate) enum Meaning {
    /// The parameter or result of this place, counted from 0 in the function over parameters and instructions, and its type.
    Value { place: u32, ty: Ty },
    /// The block of this number.
    Block(u32),
}

/// The local names so far, and where the next line stands.
#[derive(Drop)]
pub(crate) struct Locals<'a> {
    pub(crate) scope: Scope<'a, Meaning>,
    pub(crate) at: At,
}

impl<'a> Locals<'a> {
    /// With a name that a line defines.
    #[tactic(auto, unfolding(crate::specs::Locals::with_name))]
    fn add(
        &mut self,
        alloc: Global,
        line: u32,
        name: &'a [u8],
        meaning: Meaning,
        at: At,
    ) -> Result<(), ResolveRefusal>
        ensures { Gives (λ _. self.new) result (locals.with_name line self.old name.now meaning at) }
    {
        self.scope.define(alloc, line, b'%', name, meaning)?;
        self.at = at;
        Ok(())
    }

    /// With the next number as the name of what has none.
    #[tactic(auto, unfolding(crate::specs::Locals::with_name))]
    fn add_number(
        &mut self,
        alloc: Global,
        line: u32,
        meaning: Meaning,
        at: At,
    ) -> Result<(), ResolveRefusal>
        ensures { Gives (λ _. self.new) result (locals.with_name line self.old (decimal self.old.at.next) meaning at) }
    {
        let mut buffer = Buffer::new();
        let name = buffer.format(self.at.next).as_bytes();
        self.scope.define_owned(alloc, line, b'%', name, meaning)?;
        self.at = at;
        Ok(())
    }

    /// With a parameter.
    #[tactic(auto, unfolding(crate::specs::Locals::with_param))]
    fn add_param(
        &mut self,
        alloc: Global,
        line: u32,
        param: &'a Param,
    ) -> Result<(), ResolveRefusal>
        ensures { Gives (λ _. self.new) result (locals.with_param line self.old param.now) }
    {
        let at = self.at.past_param(param)?;
        let meaning = Meaning::Value {
            place: self.at.place,
            ty: param.ty,
        };
        match &param.name {
            Some(name) => self.add(alloc, line, name.as_slice(), meaning, at),
            None => self.add_number(alloc, line, meaning, at),
        }
    }

    /// With the parameters of a header.
    fn add_params(
        &mut self,
        alloc: Global,
        line: u32,
        params: &'a [Param],
    ) -> Result<(), ResolveRefusal>
        ensures { Gives (λ _. self.new) result (locals.with_params line self.old params.now) }
    {
        let mut rest = params;
        'each: while let [param, after @ ..] = rest {
            self.add_param(alloc, line, param)?;
            rest = after;
        }
        Ok(())
    }

    /// With a label.
    #[tactic(auto, unfolding(crate::specs::Locals::with_label))]
    fn add_label(&mut self, alloc: Global, line: u32, name: &'a [u8]) -> Result<(), ResolveRefusal>
        ensures { Gives (λ _. self.new) result (locals.with_label line self.old name.now) }
    {
        let at = self.at.after_label(name)?;
        self.add(alloc, line, name, Meaning::Block(self.at.blocks), at)
    }

    /// With a block open.
    #[tactic(auto, unfolding(crate::specs::Locals::with_opened))]
    fn add_opened(&mut self, alloc: Global, line: u32) -> Result<(), ResolveRefusal>
        ensures { Gives (λ _. self.new) result (locals.with_opened line self.old) }
    {
        if self.at.is_open {
            return Ok(());
        }
        let at = self.at.opened()?;
        self.add_number(alloc, line, Meaning::Block(self.at.blocks), at)
    }

    /// With the result of an instruction, if it has one.
    fn add_result(&mut self, alloc: Global, line: u32, stmt: &'a Stmt) -> Result<(), ResolveRefusal>
        ensures { Gives (λ _. self.new) result (locals.with_result line self.old stmt.now stmt.now.result) }
    {
        let at = self.at.after_inst(stmt)?;
        match &stmt.result {
            Some(name) => {
                let meaning = Meaning::Value {
                    place: self.at.place,
                    ty: stmt.ty,
                };
                self.add(alloc, line, name.as_slice(), meaning, at)
            }
            None => {
                self.at = at;
                Ok(())
            }
        }
    }

    /// With an instruction.
    #[tactic(auto, unfolding(crate::specs::Locals::with_stmt))]
    fn add_stmt(&mut self, alloc: Global, line: u32, stmt: &'a Stmt) -> Result<(), ResolveRefusal>
        ensures { Gives (λ _. self.new) result (locals.with_stmt line self.old stmt.now) }
    {
        self.add_opened(alloc, line)?;
        self.add_result(alloc, line, stmt)?;
        Ok(())
    }

    /// With a line of the body.
    fn add_line(&mut self, alloc: Global, line: u32, form: &'a Line) -> Result<(), ResolveRefusal>
        ensures { Gives (λ _. self.new) result (locals.with_line line self.old form.now) }
    {
        match form {
            Line::Label(name) => self.add_label(alloc, line, name.as_slice()),
            Line::Stmt(stmt) => self.add_stmt(alloc, line, stmt),
            _ => Ok(()),
        }
    }

    /// With all lines of the body.
    fn add_lines(&mut self, alloc: Global, body: &'a [Numbered]) -> Result<(), ResolveRefusal>
        ensures { Gives (λ _. self.new) result (locals.with_lines self.old body.now) }
    {
        let mut rest = body;
        'each: while let [first, after @ ..] = rest {
            self.add_line(alloc, first.line, &first.form)?;
            rest = after;
        }
        Ok(())
    }
}

/// How many names these lines define at least: those that they write.
fn written_names(body: &[Numbered]) -> usize {
    let mut count = 0usize;
    for line in body {
        match &line.form {
            Line::Label(_) => count = count.saturating_add(1),
            Line::Stmt(stmt) if stmt.result.is_some() => count = count.saturating_add(1),
            _ => {}
        }
    }
    count
}

/// The names of a function whose header stands in this line.
#[tactic(auto, unfolding(crate::specs::Locals::locals_of))]
pub(crate) fn locals_of<'a>(
    alloc: Global,
    line: u32,
    head: &'a Head,
    body: &'a [Numbered],
) -> Result<Locals<'a>, ResolveRefusal>
    ensures { Gives (λ whole. whole) result (locals.locals_of line head.now body.now) }
{
    let room = written_names(body).saturating_add(head.params.len());
    let mut whole = Locals {
        scope: Scope::with_room(alloc, room)?,
        at: At::start(),
    };
    whole.add_params(alloc, line, head.params.as_slice())?;
    whole.add_lines(alloc, body)?;
    Ok(whole)
}
