//! `Kind`: what is known of where a root points.
//!
//! Want of memory is the only failure.

ghost use Rattle.std.specs.Prelude.{◌≡◌, IfOk};
ghost use Rattle.ir_types.specs.declared.module.Module.{Module};
ghost use Rattle.ir_types.specs.Formed.{IsFormed, is_alloca};
ghost use Rattle.vx_view.specs.Answers.{is_value};
ghost use Rattle.vx_view.specs.Conflicts.{param_kind, kind_of, never_meet};
ghost use Rattle.vx_view.specs.Views.{StandsFor, IsAskable, Asks};
ghost use Rattle.vx_addr.specs.Parts.{as_kind, kind_answered};
ghost use Rattle.vx_addr.specs.Walks.{Names};

use ir_types::{Op, Opd, OutOfMemory, Ty};
use vx_view::{Answer, Question, View};

/// Kinds of roots.
#[derive(Clone, Copy, Debug, PartialEq, Eq)]
pub(crate) enum Kind {
    /// What an `alloca` of any block gives.
    Allocated,
    Global,
    /// A `noalias` pointer parameter.
    Alone,
    /// Another pointer parameter.
    Argument,
    Unknown,
}

/// The kind of a parameter.
fn param_kind(noalias: bool, ty: Ty) -> Kind
    ensures { as_kind result ≡ param_kind ty noalias }
{
    match ty {
        Ty::Ptr => if noalias { Kind::Alone } else { Kind::Argument },
        _ => Kind::Unknown,
    }
}

/// The kind of a value, by the answer that has it.
fn kind_answered(answer: Answer) -> Kind
    ensures { as_kind result ≡ kind_answered answer }
{
    match answer {
        Answer::Param { noalias, ty } => param_kind(noalias, ty),
        Answer::Inst { inst, .. } => match inst.op {
            Op::Alloca { .. } => Kind::Allocated,
            _ => Kind::Unknown,
        },
        _ => Kind::Unknown,
    }
}

/// The kind of a root.
pub(crate) fn kind_of<V: View>(view: &mut V, root: &Opd) -> Result<Kind, OutOfMemory>
    requires { IsAskable (V.seen view.old) }
    ensures is { IfOk result (λ kind. (m : Module) → StandsFor (V.seen view.new) m → as_kind kind ≡ kind_of m root.now) }
    ensures asks { Asks (λ m. Names (λ x. is_value x root.now)) (V.seen view.old) (V.seen view.new) }
{
    match root {
        Opd::Val(id) => {
            let answer = view.ask(&Question::Inst(*id))?;
            Ok(kind_answered(answer))
        }
        Opd::Sym(_) => Ok(Kind::Global),
        Opd::Lit(_) => Ok(Kind::Unknown),
    }
}

/// Whether two roots that differ and are of these kinds never meet.
pub(crate) fn never_meet(a: Kind, b: Kind) -> bool
    ensures { result ≡ never_meet (as_kind a) (as_kind b) }
{
    match (a, b) {
        (Kind::Allocated | Kind::Global, Kind::Allocated | Kind::Global) => true,
        (Kind::Allocated, Kind::Alone | Kind::Argument) => true,
        (Kind::Alone | Kind::Argument, Kind::Allocated) => true,
        (Kind::Alone, Kind::Alone | Kind::Argument | Kind::Global) => true,
        (Kind::Argument | Kind::Global, Kind::Alone) => true,
        _ => false,
    }
}
