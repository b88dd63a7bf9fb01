//! What is asked of a sandbox: what stands for an id, and what stands beside it.
//!
//! `Parts::found` and `Parts::at` are the entry points; each takes constant time. Nothing here fails.

ghost use Rattle.std.specs.Prelude.{◌≡◌, is_some};
ghost use Rattle.vx_view.specs.Answers.{answer, funcs_of};
ghost use Rattle.vx_view.specs.declared.question.Question.TheVariants as ask;
ghost use Rattle.sb_lines.specs.Params.{spot_from};
ghost use Rattle.sb_values.specs.Sandboxes.{contents};
ghost use Rattle.sb_values.specs.Answering.{as_answer, id_in};

use crate::Found;
use crate::parts::Parts;
use ir_types::Id;
use sb_lines::ParamSpot;
use vx_view::Question;

impl Parts {
    /// What stands for an id.
    pub(crate) fn found(&self, id: Id) -> Found<'_>
        ensures { as_answer result ≡ answer (contents self.now).own (ask.Inst id) }
    {
        if let Some(param) = self.param(id) {
            return Found::Param {
                noalias: param.noalias,
                ty: param.ty,
            };
        }
        match self.lines.found(id) {
            Some(found) => Found::Inst {
                place: found.place,
                inst: found.inst,
            },
            None => Found::Nothing,
        }
    }

    /// The instruction that a question for a neighbour or a first instruction asks for.
    pub(crate) fn at(&self, question: &Question) -> Option<Id>
        ensures { result ≡ id_in (answer (contents self.now).own question.now) }
    {
        match question {
            Question::Next(id) => self.next(*id),
            Question::Prev(id) => self.prev(*id),
            Question::First(place) => self.lines.first(*place),
            Question::Inst(_) | Question::Users(_) => None,
        }
    }

    /// The parameter of an id.
    fn param(&self, id: Id) -> Option<ParamSpot>
        ensures { result ≡ spot_from id 0 (funcs_of (contents self.now).own.items) }
    {
        self.lines.param(id)
    }

    /// Whether an id is that of a parameter.
    fn is_param(&self, id: Id) -> bool
        ensures { result ≡ is_some (spot_from id 0 (funcs_of (contents self.now).own.items)) }
    {
        self.param(id).is_some()
    }

    /// The instruction after that of an id.
    fn next(&self, id: Id) -> Option<Id>
        ensures { result ≡ id_in (answer (contents self.now).own (ask.Next id)) }
    {
        if self.is_param(id) {
            return None;
        }
        self.lines.next(id)
    }

    /// The instruction before that of an id.
    fn prev(&self, id: Id) -> Option<Id>
        ensures { result ≡ id_in (answer (contents self.now).own (ask.Prev id)) }
    {
        if self.is_param(id) {
            return None;
        }
        self.lines.prev(id)
    }
}
