//! `PlainView`: a view of a module that scans it anew at each question.
//!
//! It serves tests, and shows what a view is: it holds the module and nothing else. Want of memory is the only failure, and what a module of
//! more than 2^32 functions, blocks or slots answers.

ghost use Rattle.std.specs.Prelude.{◌≡◌, IfOk};
ghost use Rattle.vx_view.specs.Answers.{answer, funcs_of, of_value, beside, users_if, uses_of, first_in};
ghost use Rattle.vx_view.specs.Answers as of_module;
ghost use Rattle.std.specs.Prelude.{None, slice_get};
ghost use Rattle.vx_view.specs.Views.{plain};

use crate::scan::{after, before, first_id, func_at, param_of, standing_of};
use crate::users::users;
use crate::{Answer, Question, View};
use ir_types::{Id, Item, Module, OutOfMemory, Place};
use std::alloc::Global;
use vx_list::TryClone;

/// A module that is asked.
#[derive(Drop)]
pub struct PlainView<'a> {
    asked: &'a Module,
    alloc: Global,
}

impl<'a> PlainView<'a> {
    /// A view of a module.
    pub fn new(alloc: Global, asked: &'a Module) -> PlainView<'a>
        ensures { result.asked.now ≡ asked.now }
    {
        PlainView { asked, alloc }
    }
}

impl View for PlainView<'_> {
    ghost seen = { λ v. plain v.asked.now };

    fn ask(&mut self, question: &Question) -> Result<Answer, OutOfMemory> {
        answered(self.alloc, self.asked, question)
    }
}

/// The answer of a module.
fn answered(alloc: Global, asked: &Module, question: &Question) -> Result<Answer, OutOfMemory>
    ensures { IfOk result (λ a. answer asked.now question.now ≡ a) }
{
    let items = asked.items.as_slice();
    match question {
        Question::Inst(id) => value_of(alloc, items, *id),
        Question::Next(id) => next_of(items, *id),
        Question::Prev(id) => prev_of(items, *id),
        Question::Users(id) => users_of(alloc, items, *id),
        Question::First(place) => Ok(Answer::At(first_of(items, *place))),
    }
}

/// The parameter or instruction of an id.
fn value_of(alloc: Global, items: &[Item], id: Id) -> Result<Answer, OutOfMemory>
    ensures { IfOk result (λ a. of_value (of_module.param_of id (funcs_of items.now)) (of_module.standing_of id 0 (funcs_of items.now)) ≡ a) }
{
    if let Some(param) = param_of(items, id) {
        return Ok(Answer::Param {
            noalias: param.noalias,
            ty: param.ty,
        });
    }
    match standing_of(items, id)? {
        Some(found) => Ok(Answer::Inst {
            place: found.place,
            inst: found.inst.try_clone(alloc)?,
        }),
        None => Ok(Answer::Nothing),
    }
}

/// The instruction after that of an id.
fn next_of(items: &[Item], id: Id) -> Result<Answer, OutOfMemory>
    ensures { IfOk result (λ a. beside (of_module.param_of id (funcs_of items.now)) (of_module.standing_of id 0 (funcs_of items.now)) (of_module.after id) ≡ a) }
{
    if param_of(items, id).is_some() {
        return Ok(Answer::At(None));
    }
    match standing_of(items, id)? {
        Some(found) => Ok(Answer::At(after(found.block, id))),
        None => Ok(Answer::Nothing),
    }
}

/// The instruction before that of an id.
fn prev_of(items: &[Item], id: Id) -> Result<Answer, OutOfMemory>
    ensures { IfOk result (λ a. beside (of_module.param_of id (funcs_of items.now)) (of_module.standing_of id 0 (funcs_of items.now)) (of_module.before id None) ≡ a) }
{
    if param_of(items, id).is_some() {
        return Ok(Answer::At(None));
    }
    match standing_of(items, id)? {
        Some(found) => Ok(Answer::At(before(found.block, id))),
        None => Ok(Answer::Nothing),
    }
}

/// The slots that hold a value.
fn users_of(alloc: Global, items: &[Item], id: Id) -> Result<Answer, OutOfMemory>
    ensures { IfOk result (λ a. users_if (of_module.param_of id (funcs_of items.now)) (of_module.standing_of id 0 (funcs_of items.now)) (uses_of id (funcs_of items.now)) ≡ a) }
{
    if param_of(items, id).is_none() && standing_of(items, id)?.is_none() {
        return Ok(Answer::Nothing);
    }
    Ok(Answer::Users(users(alloc, items, id)?))
}

/// The first instruction of a block.
fn first_of(items: &[Item], place: Place) -> Option<Id>
    ensures { result ≡ first_in place.block (slice_get (funcs_of items.now) place.func) }
{
    let func = func_at(items, place.func)?;
    let block = func.blocks.get(place.block as usize)?;
    first_id(block.insts.as_slice())
}
