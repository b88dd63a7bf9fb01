//! Lookups: whether an id is an instruction's, and what stands before one.
//!
//! Want of memory is the only failure, and leaves the view as it was.

ghost use Rattle.std.specs.Prelude.{◌≡◌, IfOk};
ghost use Rattle.ir_types.specs.declared.module.Module.{Module};
ghost use Rattle.ir_types.specs.declared.id.Place.{Place};
ghost use Rattle.ir_types.specs.Formed.{IsFormed};
ghost use Rattle.vx_view.specs.declared.question.Question.TheVariants as ask;
ghost use Rattle.vx_view.specs.Answers as answers;
ghost use Rattle.vx_view.specs.Blocks.{block_at};
ghost use Rattle.vx_view.specs.Views.{StandsFor, IsAskable, Asks};
ghost use Rattle.std.specs.Prelude.{None, Some};
ghost use Rattle.vx_deps.specs.Reach.{IsIn, is_there, is_answered, id_answered};

use ir_types::{Id, OutOfMemory};
use vx_view::{Answer, Question, View};

/// Whether an answer has an instruction.
fn is_answered(answer: Answer) -> bool
    ensures { result ≡ is_answered answer }
{
    match answer {
        Answer::Inst { .. } => true,
        _ => false,
    }
}

/// The instruction that an answer names.
fn id_answered(answer: Answer) -> Option<Id>
    ensures { result ≡ id_answered answer }
{
    match answer {
        Answer::At(id) => id,
        _ => None,
    }
}

/// Whether an id is an instruction's.
pub(crate) fn is_there<V: View>(view: &mut V, id: Id) -> Result<bool, OutOfMemory>
    requires { IsAskable (V.seen view.old) }
    ensures is { IfOk result (λ there. (m : Module) → StandsFor (V.seen view.new) m → IsFormed m → there ≡ is_there (answers.found m id)) }
    ensures asks { Asks (λ m q. q ≡ ask.Inst id) (V.seen view.old) (V.seen view.new) }
{
    let answer = view.ask(&Question::Inst(id))?;
    Ok(is_answered(answer))
}

/// The instruction that stands before one in its block.
pub(crate) fn before<V: View>(view: &mut V, id: Id) -> Result<Option<Id>, OutOfMemory>
    requires { IsAskable (V.seen view.old) }
    ensures is { IfOk result (λ before. (m : Module) → StandsFor (V.seen view.new) m → IsFormed m → (place : Place) → IsIn (block_at m place) (Some id) → before ≡ answers.before id None (block_at m place)) }
    ensures asks { Asks (λ m q. q ≡ ask.Prev id) (V.seen view.old) (V.seen view.new) }
{
    let answer = view.ask(&Question::Prev(id))?;
    Ok(id_answered(answer))
}
