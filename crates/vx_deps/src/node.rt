//! `Node`: an instruction that a graph holds, with what it does to memory.
//!
//! Want of memory is the only failure; the view may then have more notes, and is otherwise as before.

ghost use Rattle.std.specs.Prelude.{◌≡◌, true, IfOk};
ghost use Rattle.ir_types.specs.declared.module.Module.{Module};
ghost use Rattle.vx_view.specs.declared.question.Question.TheVariants as ask;
ghost use Rattle.ir_types.specs.Formed.{IsFormed, is_alloca};
ghost use Rattle.vx_view.specs.Answers.{answer, is_value};
ghost use Rattle.vx_view.specs.Blocks.{block_at};
ghost use Rattle.vx_view.specs.Conflicts.{access_of};
ghost use Rattle.vx_addr.specs.Walks.{Names, on_access};
ghost use Rattle.vx_view.specs.Views.{StandsFor, IsAskable, Asks};
ghost use Rattle.vx_deps.specs.Reach.{is_answered, id_answered};
ghost use Rattle.vx_deps.specs.Graphs.{as_node, IsNodeOf, IsKeptOf, NamesNode, uses, depends_on};

use ir_types::{Id, Inst, Op, Opd, OutOfMemory, Place};
use std::alloc::Global;
use vx_addr::{Effect, effect_of, effects_conflict};
use vx_list::Equal;
use vx_view::{Answer, Question, View};

/// An instruction, with what is kept of it to be compared with others.
#[derive(Debug, Drop)]
pub(crate) struct Node {
    pub(crate) inst: Inst,
    effect: Effect,
}

/// The node of an instruction. It asks for the instruction, what stands after it, and what the walks from its pointer come by.
pub(crate) fn node_of<V: View>(alloc: Global, view: &mut V, id: Id) -> Result<Node, OutOfMemory>
    requires askable { IsAskable (V.seen view.old) }
    requires there { is_answered (answer (V.seen view.old).contents.own (ask.Inst id)) ≡ true }
    ensures is { IfOk result (λ node. (m : Module) → StandsFor (V.seen view.new) m → IsFormed m → IsNodeOf m id (id_answered (answer (V.seen view.old).contents.own (ask.Next id))) (as_node node)) }
    ensures id { IfOk result (λ node. node.inst.id ≡ id) }
    ensures asks { Asks (λ m. NamesNode m id) (V.seen view.old) (V.seen view.new) }
{
    view.ask(&Question::Next(id))?;
    let answer = view.ask(&Question::Inst(id))?;
    match answer {
        Answer::Inst { place, inst } => standing(alloc, view, place, inst),
        _ => unreachable!(),
    }
}

/// The node of an instruction of a block.
fn standing<V: View>(
    alloc: Global,
    view: &mut V,
    place: Place,
    inst: Inst,
) -> Result<Node, OutOfMemory>
    requires { IsAskable (V.seen view.old) }
    ensures is { IfOk result (λ node. (m : Module) → StandsFor (V.seen view.new) m → IsFormed m → IsKeptOf (block_at m place) m inst (as_node node)) }
    ensures inst { IfOk result (λ node. node.inst ≡ inst) }
    ensures asks { Asks (λ m. Names (on_access (block_at m place) (access_of inst))) (V.seen view.old) (V.seen view.new) }
{
    let effect = effect_of(alloc, view, place, &inst)?;
    Ok(Node { inst, effect })
}

/// Whether an operation is an `alloca`.
fn is_alloca(op: &Op) -> bool
    ensures { result ≡ is_alloca op.now }
{
    match op {
        Op::Alloca { .. } => true,
        _ => false,
    }
}

/// Whether an operand is a value.
fn is_value(id: Id, opd: &Opd) -> bool
    ensures { result ≡ is_value id opd.now }
{
    match opd {
        Opd::Val(other) => other.equal(&id),
        _ => false,
    }
}

/// Whether a value is among operands.
fn uses(id: Id, opds: &[Opd]) -> bool
    ensures { result ≡ uses id opds.now }
{
    let mut left = opds;
    while let [first, more @ ..] = left {
        if is_value(id, first) {
            return true;
        }
        left = more;
    }
    false
}

/// Whether the first, which stands later in the block, depends on the second.
pub(crate) fn depends_on(later: &Node, earlier: &Node) -> bool
    ensures { result ≡ depends_on (as_node later.now) (as_node earlier.now) }
{
    uses(earlier.inst.id, later.inst.opds.as_slice())
        || effects_conflict(&earlier.effect, &later.effect)
        || is_alloca(&earlier.inst.op) && is_alloca(&later.inst.op)
}
