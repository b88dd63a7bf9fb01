//! Lookups: the instruction of an id, by one question.
//!
//! Want of memory is the only failure, and leaves the view as it was.

ghost use Rattle.std.specs.Prelude.{◌≡◌, IfOk, option_map};
ghost use Rattle.ir_types.specs.declared.module.Module.{Module};
ghost use Rattle.ir_types.specs.Formed.{IsFormed};
ghost use Rattle.vx_view.specs.declared.question.Question.TheVariants as ask;
ghost use Rattle.vx_view.specs.Answers.{find, found};
ghost use Rattle.vx_view.specs.Blocks.{block_at, in_place};
ghost use Rattle.vx_view.specs.Views.{StandsFor, IsAskable, Asks};
ghost use Rattle.vx_addr.specs.Parts.{where_of, where_answered};

use ir_types::{Id, Inst, OutOfMemory, Place};
use vx_list::Equal;
use vx_view::{Answer, Question, View};

/// The instruction that was answered, where it stands in a block.
fn in_place(place: Place, answer: Answer) -> Option<Inst>
    ensures { result ≡ in_place place answer }
{
    match answer {
        Answer::Inst { place: there, inst } => if there.equal(&place) {
            Some(inst)
        } else {
            None
        },
        _ => None,
    }
}

/// The instruction that was answered, with its place.
fn where_answered(answer: Answer) -> Option<(Place, Inst)>
    ensures { result ≡ where_answered answer }
{
    match answer {
        Answer::Inst { place, inst } => Some((place, inst)),
        _ => None,
    }
}

/// The instruction of an id in a block.
pub(crate) fn definition<V: View>(
    view: &mut V,
    place: Place,
    id: Id,
) -> Result<Option<Inst>, OutOfMemory>
    requires { IsAskable (V.seen view.old) }
    ensures is { IfOk result (λ inst. (m : Module) → StandsFor (V.seen view.new) m → IsFormed m → inst ≡ find id (block_at m place)) }
    ensures asks { Asks (λ m q. q ≡ ask.Inst id) (V.seen view.old) (V.seen view.new) }
{
    let answer = view.ask(&Question::Inst(id))?;
    Ok(in_place(place, answer))
}

/// The instruction of an id, with its place.
pub(crate) fn standing<V: View>(view: &mut V, id: Id) -> Result<Option<(Place, Inst)>, OutOfMemory>
    requires { IsAskable (V.seen view.old) }
    ensures is { IfOk result (λ there. (m : Module) → StandsFor (V.seen view.new) m → IsFormed m → there ≡ option_map where_of (found m id)) }
    ensures asks { Asks (λ m q. q ≡ ask.Inst id) (V.seen view.old) (V.seen view.new) }
{
    let answer = view.ask(&Question::Inst(id))?;
    Ok(where_answered(answer))
}
