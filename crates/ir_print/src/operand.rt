//! Operands and labels, put after what is written already.
//!
//! Want of memory is the only failure, and may leave a part of
//! the text after.

ghost use Rattle.std.specs.Prelude.{◌≡◌, ◌++◌, OnOk, codes, slice_get};
ghost use Rattle.ir_print.specs.Literals as literals;
ghost use Rattle.ir_print.specs.Names.{local_of};
ghost use Rattle.ir_print.specs.Operands as operands;

use crate::names::Names;
use crate::number::{push_literal, push_ty};
use crate::scope::Scope;
use ir_types::{Bytes, Id, Opd, Ty};
use std::alloc::AllocError;

/// A text after one space, or nothing where it is empty.
pub(crate) fn push_spaced(out: &mut Vec<u8>, text: &[u8]) -> Result<(), AllocError>
    ensures { OnOk result (out.new.items ≡ out.old.items ++ operands.spaced text.now) }
{
    match text {
        [] => Ok(()),
        _ => {
            out.extend_from_slice(b" ")?;
            out.extend_from_slice(text)?;
            Ok(())
        }
    }
}

/// A local value.
pub(crate) fn push_local(out: &mut Vec<u8>, names: &Names, id: Id) -> Result<(), AllocError>
    ensures { OnOk result (out.new.items ≡ out.old.items ++ operands.local_text (local_of id names.now.locals)) }
{
    match names.local(id) {
        None => Ok(()),
        Some(local) => {
            out.extend_from_slice(b"%")?;
            local.text.push_to(out)?;
            Ok(())
        }
    }
}

fn push_global(out: &mut Vec<u8>, globals: &[Bytes], global: u32) -> Result<(), AllocError>
    ensures { OnOk result (out.new.items ≡ out.old.items ++ operands.global_text (slice_get globals.now global)) }
{
    match globals.get(global as usize) {
        None => Ok(()),
        Some(name) => {
            out.extend_from_slice(b"@")?;
            out.extend_from_slice(name.as_slice())?;
            Ok(())
        }
    }
}

/// An operand.
pub(crate) fn push_opd(out: &mut Vec<u8>, scope: &Scope, opd: &Opd) -> Result<(), AllocError>
    ensures { OnOk result (out.new.items ≡ out.old.items ++ operands.opd_text scope.now.names.now scope.now.globals.now opd.now) }
{
    match opd {
        Opd::Val(id) => push_local(out, scope.names, *id),
        Opd::Lit(literal) => push_literal(out, literal),
        Opd::Sym(global) => push_global(out, scope.globals, *global),
    }
}

/// The type of an operand.
pub(crate) fn ty_of(names: &Names, opd: &Opd) -> Ty
    ensures { result ≡ operands.opd_ty names.now opd.now }
{
    match opd {
        Opd::Val(id) => ty_of_local(names, *id),
        Opd::Lit(literal) => literal.ty,
        Opd::Sym(_) => Ty::Ptr,
    }
}

fn ty_of_local(names: &Names, id: Id) -> Ty
    ensures { result ≡ operands.local_ty (local_of id names.now.locals) }
{
    match names.local(id) {
        None => Ty::Void,
        Some(local) => local.ty,
    }
}

/// An operand after its type.
pub(crate) fn push_typed(out: &mut Vec<u8>, scope: &Scope, opd: &Opd) -> Result<(), AllocError>
    ensures { OnOk result (out.new.items ≡ out.old.items ++ operands.typed_text scope.now.names.now scope.now.globals.now opd.now) }
{
    push_ty(out, ty_of(scope.names, opd))?;
    out.extend_from_slice(b" ")?;
    push_opd(out, scope, opd)?;
    Ok(())
}

/// The operand of a slot, if there is one.
pub(crate) fn push_bare_at(
    out: &mut Vec<u8>,
    scope: &Scope,
    opds: &[Opd],
    slot: usize,
) -> Result<(), AllocError>
    ensures { OnOk result (out.new.items ≡ out.old.items ++ operands.bare_at scope.now.names.now scope.now.globals.now (slice_get opds.now slot)) }
{
    match opds.get(slot) {
        None => Ok(()),
        Some(opd) => push_opd(out, scope, opd),
    }
}

/// The operand of a slot after its type, if there is one.
pub(crate) fn push_typed_at(
    out: &mut Vec<u8>,
    scope: &Scope,
    opds: &[Opd],
    slot: usize,
) -> Result<(), AllocError>
    ensures { OnOk result (out.new.items ≡ out.old.items ++ operands.typed_at scope.now.names.now scope.now.globals.now (slice_get opds.now slot)) }
{
    match opds.get(slot) {
        None => Ok(()),
        Some(opd) => push_typed(out, scope, opd),
    }
}

/// The type of the operand of a slot, if there is one.
pub(crate) fn push_ty_at(
    out: &mut Vec<u8>,
    names: &Names,
    opds: &[Opd],
    slot: usize,
) -> Result<(), AllocError>
    ensures { OnOk result (out.new.items ≡ out.old.items ++ operands.ty_at names.now (slice_get opds.now slot)) }
{
    match opds.get(slot) {
        None => Ok(()),
        Some(opd) => push_ty(out, ty_of(names, opd)),
    }
}

/// A block's name with its `%`.
pub(crate) fn push_block(out: &mut Vec<u8>, names: &Names, block: u32) -> Result<(), AllocError>
    ensures { OnOk result (out.new.items ≡ out.old.items ++ operands.block_text (slice_get names.now.labels block)) }
{
    match names.label(block) {
        None => Ok(()),
        Some(name) => {
            out.extend_from_slice(b"%")?;
            name.push_to(out)?;
            Ok(())
        }
    }
}

/// A block as a target.
pub(crate) fn push_label(out: &mut Vec<u8>, names: &Names, block: u32) -> Result<(), AllocError>
    ensures { OnOk result (out.new.items ≡ out.old.items ++ operands.label_text names.now block) }
{
    out.extend_from_slice(b"label ")?;
    push_block(out, names, block)?;
    Ok(())
}
