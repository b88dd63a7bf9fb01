//! The operations on memory and addresses.
//!
//! Each puts what stands after the result, after what is written already. Want of memory is the only failure.

ghost use Rattle.std.specs.Prelude.{◌≡◌, ◌++◌, OnOk, codes};
ghost use Rattle.ir_print.specs.Instructions as instructions;

use crate::number::{push_elem, push_ty};
use crate::operand::{push_bare_at, push_typed};
use crate::scope::Scope;
use crate::value_ops::push_flag;
use ir_types::{Elem, Opd, Ty};
use std::alloc::AllocError;
use vx_digits::push_decimal;

fn push_operands(out: &mut Vec<u8>, scope: &Scope, opds: &[Opd]) -> Result<(), AllocError>
    ensures { OnOk result (out.new.items ≡ out.old.items ++ instructions.indices_text scope.now.names.now scope.now.globals.now opds.now) }
{
    for opd in opds {
        out.extend_from_slice(b", ")?;
        push_typed(out, scope, opd)?;
    }
    Ok(())
}

fn push_stepped(out: &mut Vec<u8>, elem: Elem, inbounds: bool) -> Result<(), AllocError>
    ensures { OnOk result (out.new.items ≡ out.old.items ++ instructions.stepped_text elem inbounds) }
{
    out.extend_from_slice(b"getelementptr")?;
    push_flag(out, inbounds, b"inbounds")?;
    out.extend_from_slice(b" ")?;
    push_elem(out, elem)?;
    Ok(())
}

/// A `getelementptr`.
pub(crate) fn push_gep(
    out: &mut Vec<u8>,
    scope: &Scope,
    elem: Elem,
    inbounds: bool,
    opds: &[Opd],
) -> Result<(), AllocError>
    ensures { OnOk result (out.new.items ≡ out.old.items ++ instructions.gep_text scope.now.names.now scope.now.globals.now elem inbounds opds.now) }
{
    push_stepped(out, elem, inbounds)?;
    push_operands(out, scope, opds)?;
    Ok(())
}

/// An align, after a comma.
fn push_align(out: &mut Vec<u8>, align: u64) -> Result<(), AllocError>
    ensures { OnOk result (out.new.items ≡ out.old.items ++ instructions.align_text align) }
{
    out.extend_from_slice(b", align ")?;
    push_decimal(out, align)?;
    Ok(())
}

/// A `load`.
pub(crate) fn push_load(
    out: &mut Vec<u8>,
    scope: &Scope,
    align: u64,
    ty: Ty,
    opds: &[Opd],
) -> Result<(), AllocError>
    ensures { OnOk result (out.new.items ≡ out.old.items ++ instructions.load_text scope.now.names.now scope.now.globals.now align ty opds.now) }
{
    out.extend_from_slice(b"load ")?;
    push_ty(out, ty)?;
    out.extend_from_slice(b", ptr ")?;
    push_bare_at(out, scope, opds, 0)?;
    push_align(out, align)?;
    Ok(())
}

/// A `store`.
pub(crate) fn push_store(
    out: &mut Vec<u8>,
    scope: &Scope,
    align: u64,
    ty: Ty,
    opds: &[Opd],
) -> Result<(), AllocError>
    ensures { OnOk result (out.new.items ≡ out.old.items ++ instructions.store_text scope.now.names.now scope.now.globals.now align ty opds.now) }
{
    out.extend_from_slice(b"store ")?;
    push_ty(out, ty)?;
    out.extend_from_slice(b" ")?;
    push_bare_at(out, scope, opds, 0)?;
    out.extend_from_slice(b", ptr ")?;
    push_bare_at(out, scope, opds, 1)?;
    push_align(out, align)?;
    Ok(())
}

fn push_given_align(out: &mut Vec<u8>, align: Option<u64>) -> Result<(), AllocError>
    ensures { OnOk result (out.new.items ≡ out.old.items ++ instructions.given_align align) }
{
    match align {
        None => Ok(()),
        Some(align) => push_align(out, align),
    }
}

/// An `alloca`.
pub(crate) fn push_alloca(
    out: &mut Vec<u8>,
    elem: Elem,
    align: Option<u64>,
) -> Result<(), AllocError>
    ensures { OnOk result (out.new.items ≡ out.old.items ++ instructions.alloca_text elem align) }
{
    out.extend_from_slice(b"alloca ")?;
    push_elem(out, elem)?;
    push_given_align(out, align)?;
    Ok(())
}
