//! The values that the arguments of a call word are at the parameters' types.
//!
//! `values` stops where an argument does not fit its parameter, or there are not as many.

ghost use Rattle.std.specs.Prelude.{◌≡◌, ◌+◌, IfOk, Some, [], length, slice_get};
ghost use Rattle.vec_words.specs.Answers.{Gives};
ghost use Rattle.vec_words.specs.Arguments as arguments;

use crate::call::Arg;
use crate::global::place_in;
use crate::literal::{Lit, lane_in, lanes_in};
use crate::refusal::{Stop, counted};
use ir_model::{Value, Values};
use ir_types::{Bytes, Lits, Param, Ty};
use std::alloc::Global;
use vx_num::Lane;

/// An integer of `w` bits.
#[tactic(auto, unfolding(crate::specs::Arguments::int_value))]
fn int_value(w: u8, arg: &Arg) -> Result<Value, Stop>
    ensures { Gives (λ x. x) result (arguments.int_value w arg.now) }
{
    match arg {
        Arg::One(lit) => Ok(Value::Lane(lane_in(w, *lit).ok_or(Stop::Unfit)?)),
        _ => Err(Stop::Unfit),
    }
}

/// The lanes of a vector of `n` lanes of `w` bits.
#[tactic(auto, unfolding(crate::specs::Arguments::row_lanes))]
fn row_lanes(alloc: Global, n: u8, w: u8, arg: &Arg) -> Result<Lits, Stop>
    ensures { Gives (λ x. x) result (arguments.row_lanes n w arg.now) }
{
    match arg {
        Arg::One(Lit::Poison) => Ok(Lits::repeated(alloc, n, None)?),
        Arg::Zero => Ok(Lits::repeated(alloc, n, Some(0))?),
        Arg::Row(lits) if lits.len() == n as usize => lanes_in(alloc, w, lits.as_slice()),
        _ => Err(Stop::Unfit),
    }
}

/// An offset in the object that the value of a number points to.
#[tactic(auto, unfolding(crate::specs::Arguments::pointer_into))]
fn pointer_into(before: &[Value], at: u64, offset: i64) -> Option<Value>
    ensures { result ≡ arguments.pointer_into (slice_get before.now at) offset }
{
    match before.get(at as usize) {
        Some(Value::Ptr(Some((object, _)))) => Some(Value::Ptr(Some((*object, offset)))),
        _ => None,
    }
}

/// A pointer to the start of the next new object.
fn pointer_to(next: usize, offset: i64) -> Result<Value, Stop>
    ensures { Gives (λ x. x) result (arguments.pointer_to next offset) }
{
    Ok(Value::Ptr(Some((counted(next)?, offset))))
}

/// A pointer into the object of a global.
fn global_pointer(globals: &[Bytes], name: &[u8], offset: i64) -> Result<Value, Stop>
    ensures { Gives (λ x. x) result (arguments.global_pointer globals.now name.now offset) }
{
    let at = place_in(globals, name).ok_or(Stop::Unfit)?;
    pointer_to(at, offset)
}

/// A pointer, by the values to the left.
#[tactic(auto, unfolding(crate::specs::Arguments::pointer_value))]
fn pointer_value(globals: &[Bytes], next: usize, before: &[Value], arg: &Arg) -> Result<Value, Stop>
    ensures { Gives (λ x. x) result (arguments.pointer_value globals.now next before.now arg.now) }
{
    match arg {
        Arg::One(Lit::Poison) => Ok(Value::Ptr(None)),
        Arg::Made(_) => pointer_to(next, 0),
        Arg::Within { arg, offset } => pointer_into(before, *arg, *offset).ok_or(Stop::Unfit),
        Arg::Global { name, offset } => global_pointer(globals, name.as_slice(), *offset),
        _ => Err(Stop::Unfit),
    }
}

/// The value of an argument at a type.
#[tactic(auto, unfolding(crate::specs::Arguments::value_in))]
fn value_in(
    alloc: Global,
    globals: &[Bytes],
    next: usize,
    before: &[Value],
    ty: Ty,
    arg: &Arg,
) -> Result<Value, Stop>
    ensures { Gives (λ x. x) result (arguments.value_in globals.now next before.now ty arg.now) }
{
    match ty {
        Ty::Void => Err(Stop::Unfit),
        Ty::Int(w) => int_value(w, arg),
        Ty::Row { n, w } => Ok(Value::Row(row_lanes(alloc, n, w, arg)?)),
        Ty::Ptr => pointer_value(globals, next, before, arg),
    }
}

/// How many objects there are with those that an argument makes.
fn after(next: usize, arg: &Arg) -> Result<usize, Stop>
    ensures { Gives (λ x. x) result (Some (next + arguments.made_count arg.now)) }
{
    match arg {
        Arg::Made(_) => next.checked_add(1).ok_or(Stop::NoMemory),
        _ => Ok(next),
    }
}

/// The values of arguments, one for each parameter.
pub(crate) fn values(
    alloc: Global,
    globals: &[Bytes],
    params: &[Param],
    args: &[Arg],
) -> Result<Values, Stop>
    ensures { Gives (λ x. x) result (arguments.values_after globals.now (length globals.now) [] params.now args.now) }
{
    let mut found = Values::new(alloc);
    let mut next = globals.len();
    let mut params = params;
    let mut rest = args;
    'each: while let [arg, more @ ..] = rest {
        let [param, others @ ..] = params else {
            return Err(Stop::Unfit);
        };
        let value = value_in(alloc, globals, next, found.as_slice(), param.ty, arg)?;
        found.push(value)?;
        next = after(next, arg)?;
        params = others;
        rest = more;
    }
    match params {
        [] => Ok(found),
        [_, ..] => Err(Stop::Unfit),
    }
}
