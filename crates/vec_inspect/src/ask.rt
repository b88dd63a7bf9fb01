//! Asking: a question over a view of a module that is formed.
//!
//! `answers` is the entry point: it asks each question as often as is wanted and tells its answer once. A view stays ready to be asked.

ghost use Rattle.std.specs.Prelude.{◌≡◌, Some, IfOk};
ghost use Rattle.ir_types.specs.declared.id.Id.{Id};
ghost use Rattle.std.specs.Prelude.{List};
ghost use Rattle.vx_deps.specs.Reach.{as_reach};
ghost use Rattle.vx_deps.specs.Ordered.{IsReach};
ghost use Rattle.vec_inspect.specs.Ready.{IsReady};

use crate::answer::Answer;
use crate::bundles::{Fault, stands_against};
use crate::listing::Listing;
use crate::question::Question;
use crate::refusal::Refusal;
use crate::request::Requests;
use ir_types::{Id, Ids, Opd};
use std::alloc::Global;
use vx_addr::{conflict, form};
use vx_deps::{Bundles, OrderRefusal, Reach, order, reach};
use vx_view::View;

/// The form of a pointer.
fn form_asked<V: View>(
    alloc: Global,
    view: &mut V,
    pointer: &Opd,
    user: Id,
) -> Result<Answer, Refusal>
    requires { IsReady (V.seen view.old) }
    ensures { IsReady (V.seen view.new) }
{
    let form = form(alloc, view, user, pointer)?;
    Ok(Answer::Form(form))
}

/// Whether two instructions conflict.
fn conflict_asked<V: View>(
    alloc: Global,
    view: &mut V,
    first: Id,
    second: Id,
) -> Result<Answer, Refusal>
    requires { IsReady (V.seen view.old) }
    ensures { IsReady (V.seen view.new) }
{
    let meets = conflict(alloc, view, first, second)?;
    Ok(Answer::Conflict(meets))
}

/// The instructions that end at the last of some.
fn reached<V: View>(alloc: Global, view: &mut V, stores: &Ids) -> Result<Reach, Refusal>
    requires { IsReady (V.seen view.old) }
    ensures ready { IsReady (V.seen view.new) }
    ensures near { IfOk result (λ given. (ids : List Id) → as_reach given ≡ Some ids → IsReach (V.seen view.new) ids) }
{
    let given = reach(alloc, view, stores)?;
    Ok(given)
}

/// The refusal of bundles with a fault.
fn refusal_of(alloc: Global, listing: &Listing<'_>, fault: Fault) -> Refusal {
    match fault {
        Fault::Empty => Refusal::NoQuestion,
        Fault::Outside(id) => match listing.shown(alloc, id) {
            Ok(word) => Refusal::Outside { word },
            Err(_) => Refusal::OutOfMemory,
        },
        Fault::Twice(id) => match listing.shown(alloc, id) {
            Ok(word) => Refusal::Twice { word },
            Err(_) => Refusal::OutOfMemory,
        },
    }
}

/// The order of bundles in the window that ends at the last of a reach.
fn ordered<V: View>(
    alloc: Global,
    view: &mut V,
    listing: &Listing<'_>,
    reach: &Ids,
    bundles: &Bundles,
) -> Result<Answer, Refusal>
    requires ready { IsReady (V.seen view.old) }
    requires reach { IsReach (V.seen view.old) reach.now }
    ensures { IsReady (V.seen view.new) }
{
    if bundles.is_empty() {
        return Err(Refusal::NoQuestion);
    }
    if let Some(fault) = stands_against(alloc, reach.as_slice(), bundles.as_slice())? {
        return Err(refusal_of(alloc, listing, fault));
    }
    match order(alloc, view, reach, bundles) {
        Ok(groups) => Ok(Answer::Order(groups)),
        Err(OrderRefusal::NoOrder { cycle }) => Ok(Answer::NoOrder(cycle)),
        Err(OrderRefusal::OutOfMemory) => Err(Refusal::OutOfMemory),
    }
}

/// The order of bundles in the reach of the first.
fn order_asked<V: View>(
    alloc: Global,
    view: &mut V,
    listing: &Listing<'_>,
    bundles: &Bundles,
) -> Result<Answer, Refusal>
    requires { IsReady (V.seen view.old) }
    ensures { IsReady (V.seen view.new) }
{
    let Some(stores) = bundles.get(0) else {
        return Err(Refusal::NoQuestion);
    };
    match reached(alloc, view, stores)? {
        Reach::Near(ids) => ordered(alloc, view, listing, &ids, bundles),
        Reach::Far => Err(Refusal::Far),
    }
}

/// The answer to a question.
fn answer<V: View>(
    alloc: Global,
    view: &mut V,
    listing: &Listing<'_>,
    question: &Question,
) -> Result<Answer, Refusal>
    requires { IsReady (V.seen view.old) }
    ensures { IsReady (V.seen view.new) }
{
    match question {
        Question::Form { pointer, user } => form_asked(alloc, view, pointer, *user),
        Question::Conflict { first, second } => conflict_asked(alloc, view, *first, *second),
        Question::Reach { stores } => Ok(Answer::Reach(reached(alloc, view, stores)?)),
        Question::Order { bundles } => order_asked(alloc, view, listing, bundles),
    }
}

/// The answer to a question that is asked so many times, and once at least.
fn answer_at_last<V: View>(
    alloc: Global,
    view: &mut V,
    listing: &Listing<'_>,
    question: &Question,
    times: u64,
) -> Result<Answer, Refusal>
    requires { IsReady (V.seen view.old) }
    ensures { IsReady (V.seen view.new) }
{
    for _ in 1..times {
        answer(alloc, view, listing, question)?;
    }
    answer(alloc, view, listing, question)
}

/// The text of the answers to all that is asked.
pub(crate) fn answers<V: View>(
    alloc: Global,
    view: &mut V,
    listing: &Listing<'_>,
    asked: &Requests<'_>,
) -> Result<Vec<u8>, Refusal>
    requires { IsReady (V.seen view.old) }
    ensures { IsReady (V.seen view.new) }
{
    let mut out = Vec::new(alloc);
    for request in asked.requests.as_slice() {
        let question = listing.question(alloc, *request)?;
        let answer = answer_at_last(alloc, view, listing, &question, asked.times)?;
        listing.push_answer(&mut out, &answer)?;
    }
    Ok(out)
}
