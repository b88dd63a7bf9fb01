//! Lookups: what lanes are in a block, and the types of operands, each by one question.
//!
//! Want of memory is the only failure; the view may then have more notes, and is otherwise as before.

ghost use Rattle.std.specs.Prelude.{◌≡◌, IfOk};
ghost use Rattle.ir_types.specs.declared.module.Module.{Module};
ghost use Rattle.ir_types.specs.Formed.{IsFormed, given_ty};
ghost use Rattle.vx_view.specs.Answers.{is_value};
ghost use Rattle.vx_view.specs.Blocks.{block_at, in_place};
ghost use Rattle.vx_view.specs.Views.{StandsFor, IsAskable, Asks};
ghost use Rattle.vx_addr.specs.Walks.{Names};
ghost use Rattle.vx_serial.specs.Legal.{inst_of, ty_of};
ghost use Rattle.vx_legal.specs.Found.{found_of, is_lane, ty_answered};

use ir_types::{Inst, Op, Opd, OutOfMemory, Place, Ty};
use std::alloc::Global;
use vx_list::{Equal, Seq};
use vx_view::{Answer, Question, View};

/// What was answered for lanes: the instruction of the block that each one is.
pub type Found = Seq<Option<Inst>>;

/// The instruction that was answered, where it stands in a block.
fn in_place(place: Place, answer: Answer) -> Option<Inst>
    ensures { result ≡ in_place place answer }
{
    match answer {
        Answer::Inst { place: there, inst } => if there.equal(&place) {
            Some(inst)
        } else {
            None
        },
        _ => None,
    }
}

/// The instruction of a block that a lane is. It asks for the lane.
pub fn inst_of<V: View>(view: &mut V, place: Place, lane: &Opd) -> Result<Option<Inst>, OutOfMemory>
    requires { IsAskable (V.seen view.old) }
    ensures is { IfOk result (λ inst. (m : Module) → StandsFor (V.seen view.new) m → IsFormed m → inst ≡ inst_of (block_at m place) lane.now) }
    ensures asks { Asks (λ m. Names (λ x. is_value x lane.now)) (V.seen view.old) (V.seen view.new) }
{
    match lane {
        Opd::Val(id) => {
            let answer = view.ask(&Question::Inst(*id))?;
            Ok(in_place(place, answer))
        }
        Opd::Lit(_) | Opd::Sym(_) => Ok(None),
    }
}

/// What lanes are in a block, lane by lane. It asks for each lane once.
pub fn found_of<V: View>(
    alloc: Global,
    view: &mut V,
    place: Place,
    lanes: &[Opd],
) -> Result<Found, OutOfMemory>
    requires { IsAskable (V.seen view.old) }
    ensures is { IfOk result (λ all. (m : Module) → StandsFor (V.seen view.new) m → IsFormed m → all ≡ found_of (block_at m place) lanes.now) }
    ensures asks { Asks (λ m. Names (is_lane lanes.now)) (V.seen view.old) (V.seen view.new) }
{
    let mut all = Found::new(alloc);
    let mut left = lanes;
    while let Some((first, more)) = left.split_first() {
        let inst = inst_of(view, place, first)?;
        all.push(inst)?;
        left = more;
    }
    Ok(all)
}

/// The type that an instruction gives.
fn given_ty(op: &Op, ty: Ty) -> Ty
    ensures { result ≡ given_ty op.now ty }
{
    match op {
        Op::Store { .. } => Ty::Void,
        _ => ty,
    }
}

/// The type of the value that was answered.
fn ty_answered(answer: Answer) -> Option<Ty>
    ensures { result ≡ ty_answered answer }
{
    match answer {
        Answer::Param { ty, .. } => Some(ty),
        Answer::Inst { inst, .. } => Some(given_ty(&inst.op, inst.ty)),
        _ => None,
    }
}

/// The type of an operand. It asks for the operand.
pub fn ty_of<V: View>(view: &mut V, opd: &Opd) -> Result<Option<Ty>, OutOfMemory>
    requires { IsAskable (V.seen view.old) }
    ensures is { IfOk result (λ ty. (m : Module) → StandsFor (V.seen view.new) m → ty ≡ ty_of m opd.now) }
    ensures asks { Asks (λ m. Names (λ x. is_value x opd.now)) (V.seen view.old) (V.seen view.new) }
{
    match opd {
        Opd::Val(id) => {
            let answer = view.ask(&Question::Inst(*id))?;
            Ok(ty_answered(answer))
        }
        Opd::Lit(literal) => Ok(Some(literal.ty)),
        Opd::Sym(_) => Ok(Some(Ty::Ptr)),
    }
}
