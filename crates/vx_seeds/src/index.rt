//! `Index`: a view of a module that answers for an id in constant time.
//!
//! It holds the module with a table of its ids. Every other question is answered by a scan. Want of memory is the only failure.

ghost use Rattle.std.specs.Prelude.{◌≡◌, IfOk};
ghost use Rattle.vx_view.specs.declared.question.Question.TheVariants as ask;
ghost use Rattle.vx_view.specs.Answers.{answer};
ghost use Rattle.vx_view.specs.Views.{plain};
ghost use Rattle.std.specs.Option.{option_copied};
ghost use Rattle.vx_view.specs.declared.answer.Answer.TheVariants as says;
ghost use Rattle.vx_seeds.specs.Known.{or_answer};

use crate::known::{Known, Table};
use ir_types::{Id, Module, OutOfMemory};
use std::alloc::Global;
use std::marker::Model;
use vx_list::TryClone;
use vx_view::{Answer, PlainView, Question, View};

/// A module that is asked, with its table.
#[derive(Drop)]
pub(crate) struct Index<'a> {
    table: Table<'a>,
    alloc: Global,
}

impl<'a> Model for Index<'a> {
    ghost use Rattle.ir_types.specs.declared.module.Module.{Module};
    ghost use Rattle.ir_types.specs.contracts.module.Module.{the_row};
    ghost use Rattle.vx_seeds.specs.Known.{IsTable};

    ghost Value = { Module };

    ghost coded = { the_row.coded };

    ghost view = { λ i. i.table.asked.now };

    ghost invariant = { λ i. IsTable i.table };
}

impl<'a> Index<'a> {
    /// The index of a module.
    pub(crate) fn new(alloc: Global, asked: &'a Module) -> Result<Index<'a>, OutOfMemory>
        ensures { IfOk result (λ index. index ≡ asked.now) }
    {
        let table = Table::new(alloc, asked)?;
        Ok(Index { table, alloc })
    }

    /// What an id is.
    fn value(&self, id: Id) -> Result<Answer, OutOfMemory>
        ensures { IfOk result (λ a. answer self.now (ask.Inst id) ≡ a) }
    {
        told(self.alloc, self.table.known.get(id))
    }

    /// The answer to a question.
    fn answered(&self, question: &Question) -> Result<Answer, OutOfMemory>
        ensures { IfOk result (λ a. answer self.now question.now ≡ a) }
    {
        match question {
            Question::Inst(id) => self.value(*id),
            _ => scanned(self.alloc, self.table.asked, question),
        }
    }
}

impl View for Index<'_> {
    ghost seen = { λ i. plain i };

    fn ask(&mut self, question: &Question) -> Result<Answer, OutOfMemory> {
        self.answered(question)
    }
}

/// The answer by a scan.
fn scanned(alloc: Global, asked: &Module, question: &Question) -> Result<Answer, OutOfMemory>
    ensures { IfOk result (λ a. answer asked.now question.now ≡ a) }
{
    let mut view = PlainView::new(alloc, asked);
    view.ask(question)
}

/// The answer that is kept.
fn told(alloc: Global, known: Option<&Known<'_>>) -> Result<Answer, OutOfMemory>
    ensures { IfOk result (λ a. or_answer (option_copied known.entry) says.Nothing ≡ a) }
{
    match known {
        Some(Known::Param { noalias, ty }) => Ok(Answer::Param {
            noalias: *noalias,
            ty: *ty,
        }),
        Some(Known::Inst { place, inst }) => Ok(Answer::Inst {
            place: *place,
            inst: inst.try_clone(alloc)?,
        }),
        None => Ok(Answer::Nothing),
    }
}
