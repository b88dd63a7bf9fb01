//! The operations on the flow of control, and calls.
//!
//! Each puts what stands after the result, after what is written already. Want of memory is the only failure.

ghost use Rattle.std.specs.Prelude.{◌≡◌, ◌++◌, OnOk, codes, slice_get};
ghost use Rattle.ir_print.specs.Instructions as instructions;
ghost use Rattle.ir_print.specs.Operands.{label_text};

use crate::names::Names;
use crate::number::push_ty;
use crate::operand::{
    push_bare_at, push_block, push_label, push_opd, push_spaced, push_typed, push_typed_at, ty_of,
};
use crate::scope::Scope;
use ir_types::{Bytes, CallSite, Opd, Ty};
use std::alloc::AllocError;
use vx_digits::{push_decimal, push_lane};
use vx_num::Lane;

fn push_pair(out: &mut Vec<u8>, scope: &Scope, opd: &Opd, block: u32) -> Result<(), AllocError>
    ensures { OnOk result (out.new.items ≡ out.old.items ++ instructions.pair_text scope.now.names.now scope.now.globals.now opd.now block) }
{
    out.extend_from_slice(b"[ ")?;
    push_opd(out, scope, opd)?;
    out.extend_from_slice(b", ")?;
    push_block(out, scope.names, block)?;
    out.extend_from_slice(b" ]")?;
    Ok(())
}

fn push_more_pairs(
    out: &mut Vec<u8>,
    scope: &Scope,
    opds: &[Opd],
    blocks: &[u32],
) -> Result<(), AllocError>
    ensures { OnOk result (out.new.items ≡ out.old.items ++ instructions.more_pairs scope.now.names.now scope.now.globals.now opds.now blocks.now) }
{
    let mut from = blocks;
    for opd in opds {
        match from {
            [] => return Ok(()),
            [block, more_from @ ..] => {
                out.extend_from_slice(b", ")?;
                push_pair(out, scope, opd, *block)?;
                from = more_from;
            }
        }
    }
    Ok(())
}

fn push_pairs(
    out: &mut Vec<u8>,
    scope: &Scope,
    opds: &[Opd],
    blocks: &[u32],
) -> Result<(), AllocError>
    ensures { OnOk result (out.new.items ≡ out.old.items ++ instructions.pairs_text scope.now.names.now scope.now.globals.now opds.now blocks.now) }
{
    match (opds, blocks) {
        ([opd, more_operands @ ..], [block, more_from @ ..]) => {
            push_pair(out, scope, opd, *block)?;
            push_more_pairs(out, scope, more_operands, more_from)?;
            Ok(())
        }
        _ => Ok(()),
    }
}

/// A `phi`.
pub(crate) fn push_phi(
    out: &mut Vec<u8>,
    scope: &Scope,
    blocks: &[u32],
    ty: Ty,
    opds: &[Opd],
) -> Result<(), AllocError>
    ensures { OnOk result (out.new.items ≡ out.old.items ++ instructions.phi_text scope.now.names.now scope.now.globals.now blocks.now ty opds.now) }
{
    out.extend_from_slice(b"phi ")?;
    push_ty(out, ty)?;
    out.extend_from_slice(b" ")?;
    push_pairs(out, scope, opds, blocks)?;
    Ok(())
}

/// A `ret`.
pub(crate) fn push_ret(out: &mut Vec<u8>, scope: &Scope, opds: &[Opd]) -> Result<(), AllocError>
    ensures { OnOk result (out.new.items ≡ out.old.items ++ instructions.ret_text scope.now.names.now scope.now.globals.now (slice_get opds.now 0)) }
{
    match opds.get(0) {
        None => {
            out.extend_from_slice(b"ret void")?;
            Ok(())
        }
        Some(opd) => {
            out.extend_from_slice(b"ret ")?;
            push_typed(out, scope, opd)?;
            Ok(())
        }
    }
}

/// A `br` without a condition.
pub(crate) fn push_br(out: &mut Vec<u8>, names: &Names, to: u32) -> Result<(), AllocError>
    ensures { OnOk result (out.new.items ≡ out.old.items ++ (codes "br " ++ label_text names.now to)) }
{
    out.extend_from_slice(b"br ")?;
    push_label(out, names, to)?;
    Ok(())
}

/// A `br` on a condition.
pub(crate) fn push_cond(
    out: &mut Vec<u8>,
    scope: &Scope,
    yes: u32,
    no: u32,
    opds: &[Opd],
) -> Result<(), AllocError>
    ensures { OnOk result (out.new.items ≡ out.old.items ++ instructions.cond_text scope.now.names.now scope.now.globals.now yes no opds.now) }
{
    out.extend_from_slice(b"br i1 ")?;
    push_bare_at(out, scope, opds, 0)?;
    out.extend_from_slice(b", ")?;
    push_label(out, scope.names, yes)?;
    out.extend_from_slice(b", ")?;
    push_label(out, scope.names, no)?;
    Ok(())
}

fn width_of(ty: Ty) -> u8
    ensures { result ≡ instructions.width_of ty }
{
    match ty {
        Ty::Int(w) => w,
        _ => 0,
    }
}

/// The width of the number that a `switch` looks at.
fn switch_width(names: &Names, opds: &[Opd]) -> u8
    ensures { result ≡ instructions.switch_width names.now (slice_get opds.now 0) }
{
    match opds.get(0) {
        None => 0,
        Some(opd) => width_of(ty_of(names, opd)),
    }
}

fn push_case(out: &mut Vec<u8>, names: &Names, w: u8, case: Lane, to: u32) -> Result<(), AllocError>
    ensures { OnOk result (out.new.items ≡ out.old.items ++ instructions.case_text names.now w case to) }
{
    out.extend_from_slice(b"    i")?;
    push_decimal(out, w as u64)?;
    out.extend_from_slice(b" ")?;
    push_lane(out, w, case)?;
    out.extend_from_slice(b", ")?;
    push_label(out, names, to)?;
    out.extend_from_slice(b"\n")?;
    Ok(())
}

fn push_cases(
    out: &mut Vec<u8>,
    names: &Names,
    w: u8,
    cases: &[Lane],
    to: &[u32],
) -> Result<(), AllocError>
    ensures { OnOk result (out.new.items ≡ out.old.items ++ instructions.cases_text names.now w cases.now to.now) }
{
    let mut targets = to;
    for case in cases {
        match targets {
            [] => return Ok(()),
            [target, more_targets @ ..] => {
                push_case(out, names, w, *case, *target)?;
                targets = more_targets;
            }
        }
    }
    Ok(())
}

/// A `switch`, over several lines.
pub(crate) fn push_switch(
    out: &mut Vec<u8>,
    scope: &Scope,
    other: u32,
    cases: &[Lane],
    to: &[u32],
    opds: &[Opd],
) -> Result<(), AllocError>
    ensures { OnOk result (out.new.items ≡ out.old.items ++ instructions.switch_text scope.now.names.now scope.now.globals.now other cases.now to.now opds.now) }
{
    out.extend_from_slice(b"switch ")?;
    push_typed_at(out, scope, opds, 0)?;
    out.extend_from_slice(b", ")?;
    push_label(out, scope.names, other)?;
    out.extend_from_slice(b" [\n")?;
    push_cases(out, scope.names, switch_width(scope.names, opds), cases, to)?;
    out.extend_from_slice(b"  ]")?;
    Ok(())
}

fn push_argument(
    out: &mut Vec<u8>,
    scope: &Scope,
    opd: &Opd,
    attrs: &[u8],
) -> Result<(), AllocError>
    ensures { OnOk result (out.new.items ≡ out.old.items ++ instructions.argument_text scope.now.names.now scope.now.globals.now opd.now attrs.now) }
{
    push_ty(out, ty_of(scope.names, opd))?;
    push_spaced(out, attrs)?;
    out.extend_from_slice(b" ")?;
    push_opd(out, scope, opd)?;
    Ok(())
}

fn push_more_arguments(
    out: &mut Vec<u8>,
    scope: &Scope,
    opds: &[Opd],
    attrs: &[Bytes],
) -> Result<(), AllocError>
    ensures { OnOk result (out.new.items ≡ out.old.items ++ instructions.more_arguments scope.now.names.now scope.now.globals.now opds.now attrs.now) }
{
    let mut texts = attrs;
    for opd in opds {
        match texts {
            [] => return Ok(()),
            [text, more_texts @ ..] => {
                out.extend_from_slice(b", ")?;
                push_argument(out, scope, opd, text.as_slice())?;
                texts = more_texts;
            }
        }
    }
    Ok(())
}

fn push_arguments(
    out: &mut Vec<u8>,
    scope: &Scope,
    opds: &[Opd],
    attrs: &[Bytes],
) -> Result<(), AllocError>
    ensures { OnOk result (out.new.items ≡ out.old.items ++ instructions.arguments_text scope.now.names.now scope.now.globals.now opds.now attrs.now) }
{
    match (opds, attrs) {
        ([opd, more_operands @ ..], [text, more_texts @ ..]) => {
            push_argument(out, scope, opd, text.as_slice())?;
            push_more_arguments(out, scope, more_operands, more_texts)?;
            Ok(())
        }
        _ => Ok(()),
    }
}

fn push_tail(out: &mut Vec<u8>, tail: &[u8]) -> Result<(), AllocError>
    ensures { OnOk result (out.new.items ≡ out.old.items ++ instructions.tail_text tail.now) }
{
    match tail {
        [] => Ok(()),
        _ => {
            out.extend_from_slice(tail)?;
            out.extend_from_slice(b" ")?;
            Ok(())
        }
    }
}

fn push_callee(out: &mut Vec<u8>, pre: &[u8], ty: Ty, callee: &[u8]) -> Result<(), AllocError>
    ensures { OnOk result (out.new.items ≡ out.old.items ++ instructions.callee_text pre.now ty callee.now) }
{
    out.extend_from_slice(b"call")?;
    push_spaced(out, pre)?;
    out.extend_from_slice(b" ")?;
    push_ty(out, ty)?;
    out.extend_from_slice(b" @")?;
    out.extend_from_slice(callee)?;
    out.extend_from_slice(b"(")?;
    Ok(())
}

/// A `call`.
pub(crate) fn push_call(
    out: &mut Vec<u8>,
    scope: &Scope,
    site: &CallSite,
    ty: Ty,
    opds: &[Opd],
) -> Result<(), AllocError>
    ensures { OnOk result (out.new.items ≡ out.old.items ++ instructions.call_text scope.now.names.now scope.now.globals.now
        site.now.tail site.now.pre site.now.callee site.now.attrs site.now.post ty opds.now) }
{
    push_tail(out, site.tail.as_slice())?;
    push_callee(out, site.pre.as_slice(), ty, site.callee.as_slice())?;
    push_arguments(out, scope, opds, site.attrs.as_slice())?;
    out.extend_from_slice(b")")?;
    push_spaced(out, site.post.as_slice())?;
    Ok(())
}
