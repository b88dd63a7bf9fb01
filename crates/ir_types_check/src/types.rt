//! Types as they are written, against those of values, functions and callees.
//!
//! Nothing here fails.

ghost use Rattle.std.specs.Prelude.{◌≡◌, map};
ghost use Rattle.std.specs.List.{list_all};
ghost use Rattle.ir_types_check.specs.Scope.{meaning};
ghost use Rattle.ir_types_check.specs.Typed as typed;

use crate::locals::Meaning;
use crate::scope::Scope;
use crate::tops::Top;
use ir_line::{Arg, Written};
use ir_types::Ty;

/// Whether an operand has the type that is written for it.
fn arg_fits(locals: &Scope<Meaning>, arg: &Arg) -> bool
    ensures { result ≡ typed.arg_fits locals.now arg.now }
{
    match &arg.opd {
        Written::Local(name) => match locals.get(name.as_slice()) {
            Some(Meaning::Value { place: _, ty }) => ty.same(arg.ty),
            _ => false,
        },
        _ => true,
    }
}

/// Whether all do.
pub(crate) fn args_fit(locals: &Scope<Meaning>, args: &[Arg]) -> bool
    ensures { result ≡ list_all (typed.arg_fits locals.now) args.now }
{
    let mut rest = args;
    'each: while let [arg, after @ ..] = rest {
        if !arg_fits(locals, arg) {
            return false;
        }
        rest = after;
    }
    true
}

/// The type of the first operand, if there is one.
pub(crate) fn first_ty(args: &[Arg]) -> Ty
    ensures { result ≡ typed.first_ty args.now }
{
    match args {
        [] => Ty::Void,
        [arg, ..] => arg.ty,
    }
}

/// Whether operands are written with these types.
fn takes(params: &[Ty], args: &[Arg]) -> bool
    ensures { result ≡ typed.takes params.now args.now }
{
    let mut params = params;
    let mut args = args;
    'each: while let [param, others @ ..] = params {
        let [arg, more @ ..] = args else {
            return false;
        };
        if !param.same(arg.ty) {
            return false;
        }
        params = others;
        args = more;
    }
    args.is_empty()
}

/// Whether a call gives and takes what its callee does.
pub(crate) fn calls(tops: &Scope<Top>, callee: &[u8], ty: Ty, args: &[Arg]) -> bool
    ensures { result ≡ typed.calls ty args.now (meaning callee.now tops.now) }
{
    match tops.get(callee) {
        Some(Top::Function(signature)) => {
            signature.ret.same(ty) && takes(signature.params.as_slice(), args)
        }
        _ => false,
    }
}
