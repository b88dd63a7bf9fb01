//! The value operations: arithmetic, comparison, conversion, choice and the lanes of vectors.
//!
//! Each puts what stands after the result, after what is written already. Want of memory is the only failure.

ghost use Rattle.std.specs.Prelude.{◌≡◌, ◌++◌, OnOk, codes, true};
ghost use Rattle.vx_num.specs.Keywords as keywords;
ghost use Rattle.ir_print.specs.Instructions as instructions;

use crate::number::{push_ty, push_vector};
use crate::operand::{push_bare_at, push_ty_at, push_typed_at};
use crate::scope::Scope;
use ir_types::{Opd, Ty};
use std::alloc::AllocError;
use vx_digits::push_decimal;
use vx_num::{BinOp, CastOp, Flags, Lane, Pred};

fn bin_word(op: BinOp) -> &'static [u8]
    ensures { result.now ≡ keywords.bin_word op }
{
    match op {
        BinOp::Add => b"add",
        BinOp::Sub => b"sub",
        BinOp::Mul => b"mul",
        BinOp::Shl => b"shl",
        BinOp::Udiv => b"udiv",
        BinOp::Sdiv => b"sdiv",
        BinOp::Urem => b"urem",
        BinOp::Srem => b"srem",
        BinOp::Lshr => b"lshr",
        BinOp::Ashr => b"ashr",
        BinOp::And => b"and",
        BinOp::Or => b"or",
        BinOp::Xor => b"xor",
    }
}

fn pred_word(pred: Pred) -> &'static [u8]
    ensures { result.now ≡ keywords.pred_word pred }
{
    match pred {
        Pred::Eq => b"eq",
        Pred::Ne => b"ne",
        Pred::Ugt => b"ugt",
        Pred::Uge => b"uge",
        Pred::Ult => b"ult",
        Pred::Ule => b"ule",
        Pred::Sgt => b"sgt",
        Pred::Sge => b"sge",
        Pred::Slt => b"slt",
        Pred::Sle => b"sle",
    }
}

fn cast_word(op: CastOp) -> &'static [u8]
    ensures { result.now ≡ keywords.cast_word op }
{
    match op {
        CastOp::Zext => b"zext",
        CastOp::Sext => b"sext",
        CastOp::Trunc => b"trunc",
    }
}

/// A word after a space, where its flag is set.
pub(crate) fn push_flag(out: &mut Vec<u8>, flag: bool, word: &[u8]) -> Result<(), AllocError>
    ensures { OnOk result (out.new.items ≡ out.old.items ++ instructions.flag_text flag word.now) }
{
    if flag {
        out.extend_from_slice(b" ")?;
        out.extend_from_slice(word)?;
    }
    Ok(())
}

fn push_wrap_flags(out: &mut Vec<u8>, flags: Flags) -> Result<(), AllocError>
    ensures { OnOk result (out.new.items ≡ out.old.items ++ instructions.wrap_flags flags) }
{
    push_flag(out, flags.nuw, b"nuw")?;
    push_flag(out, flags.nsw, b"nsw")?;
    Ok(())
}

/// The flags that an operation can have.
fn push_flags(out: &mut Vec<u8>, op: BinOp, flags: Flags) -> Result<(), AllocError>
    ensures { OnOk result (out.new.items ≡ out.old.items ++ instructions.flags_text op flags) }
{
    match op {
        BinOp::Add | BinOp::Sub | BinOp::Mul | BinOp::Shl => push_wrap_flags(out, flags),
        BinOp::Udiv | BinOp::Sdiv | BinOp::Lshr | BinOp::Ashr => push_flag(
            out,
            flags.exact,
            b"exact",
        ),
        BinOp::Or => push_flag(out, flags.disjoint, b"disjoint"),
        BinOp::Urem | BinOp::Srem | BinOp::And | BinOp::Xor => Ok(()),
    }
}

fn push_two(out: &mut Vec<u8>, scope: &Scope, opds: &[Opd]) -> Result<(), AllocError>
    ensures { OnOk result (out.new.items ≡ out.old.items ++ instructions.two_text scope.now.names.now scope.now.globals.now opds.now) }
{
    push_bare_at(out, scope, opds, 0)?;
    out.extend_from_slice(b", ")?;
    push_bare_at(out, scope, opds, 1)?;
    Ok(())
}

/// Two operands, each after its type.
pub(crate) fn push_two_typed(
    out: &mut Vec<u8>,
    scope: &Scope,
    opds: &[Opd],
) -> Result<(), AllocError>
    ensures { OnOk result (out.new.items ≡ out.old.items ++ instructions.two_typed scope.now.names.now scope.now.globals.now opds.now) }
{
    push_typed_at(out, scope, opds, 0)?;
    out.extend_from_slice(b", ")?;
    push_typed_at(out, scope, opds, 1)?;
    Ok(())
}

fn push_three_typed(out: &mut Vec<u8>, scope: &Scope, opds: &[Opd]) -> Result<(), AllocError>
    ensures { OnOk result (out.new.items ≡ out.old.items ++ instructions.three_typed scope.now.names.now scope.now.globals.now opds.now) }
{
    push_two_typed(out, scope, opds)?;
    out.extend_from_slice(b", ")?;
    push_typed_at(out, scope, opds, 2)?;
    Ok(())
}

/// A binary operation.
pub(crate) fn push_bin(
    out: &mut Vec<u8>,
    scope: &Scope,
    op: BinOp,
    flags: Flags,
    ty: Ty,
    opds: &[Opd],
) -> Result<(), AllocError>
    ensures { OnOk result (out.new.items ≡ out.old.items ++ instructions.bin_text scope.now.names.now scope.now.globals.now op flags ty opds.now) }
{
    out.extend_from_slice(bin_word(op))?;
    push_flags(out, op, flags)?;
    out.extend_from_slice(b" ")?;
    push_ty(out, ty)?;
    out.extend_from_slice(b" ")?;
    push_two(out, scope, opds)?;
    Ok(())
}

/// A comparison.
pub(crate) fn push_icmp(
    out: &mut Vec<u8>,
    scope: &Scope,
    pred: Pred,
    opds: &[Opd],
) -> Result<(), AllocError>
    ensures { OnOk result (out.new.items ≡ out.old.items ++ instructions.icmp_text scope.now.names.now scope.now.globals.now pred opds.now) }
{
    out.extend_from_slice(b"icmp ")?;
    out.extend_from_slice(pred_word(pred))?;
    out.extend_from_slice(b" ")?;
    push_ty_at(out, scope.names, opds, 0)?;
    out.extend_from_slice(b" ")?;
    push_two(out, scope, opds)?;
    Ok(())
}

/// A conversion.
pub(crate) fn push_cast(
    out: &mut Vec<u8>,
    scope: &Scope,
    op: CastOp,
    nneg: bool,
    ty: Ty,
    opds: &[Opd],
) -> Result<(), AllocError>
    ensures { OnOk result (out.new.items ≡ out.old.items ++ instructions.cast_text scope.now.names.now scope.now.globals.now op nneg ty opds.now) }
{
    out.extend_from_slice(cast_word(op))?;
    push_flag(out, nneg, b"nneg")?;
    out.extend_from_slice(b" ")?;
    push_typed_at(out, scope, opds, 0)?;
    out.extend_from_slice(b" to ")?;
    push_ty(out, ty)?;
    Ok(())
}

/// A `select`.
pub(crate) fn push_select(out: &mut Vec<u8>, scope: &Scope, opds: &[Opd]) -> Result<(), AllocError>
    ensures { OnOk result (out.new.items ≡ out.old.items ++ (codes "select " ++ instructions.three_typed scope.now.names.now scope.now.globals.now opds.now)) }
{
    out.extend_from_slice(b"select ")?;
    push_three_typed(out, scope, opds)?;
    Ok(())
}

/// An `extractelement`.
pub(crate) fn push_extract(out: &mut Vec<u8>, scope: &Scope, opds: &[Opd]) -> Result<(), AllocError>
    ensures { OnOk result (out.new.items ≡ out.old.items ++ (codes "extractelement " ++ instructions.two_typed scope.now.names.now scope.now.globals.now opds.now)) }
{
    out.extend_from_slice(b"extractelement ")?;
    push_two_typed(out, scope, opds)?;
    Ok(())
}

/// An `insertelement`.
pub(crate) fn push_insert(out: &mut Vec<u8>, scope: &Scope, opds: &[Opd]) -> Result<(), AllocError>
    ensures { OnOk result (out.new.items ≡ out.old.items ++ (codes "insertelement " ++ instructions.three_typed scope.now.names.now scope.now.globals.now opds.now)) }
{
    out.extend_from_slice(b"insertelement ")?;
    push_three_typed(out, scope, opds)?;
    Ok(())
}

fn push_mask(out: &mut Vec<u8>, mask: &[Lane]) -> Result<(), AllocError>
    ensures { OnOk result (out.new.items ≡ out.old.items ++ instructions.mask_text mask.now) }
{
    out.extend_from_slice(b"<")?;
    push_decimal(out, mask.len() as u64)?;
    out.extend_from_slice(b" x i32> ")?;
    push_vector(out, 32, mask)?;
    Ok(())
}

fn push_shuffled(out: &mut Vec<u8>, scope: &Scope, opds: &[Opd]) -> Result<(), AllocError>
    ensures { OnOk result (out.new.items ≡ out.old.items ++ instructions.shuffled_text scope.now.names.now scope.now.globals.now opds.now) }
{
    out.extend_from_slice(b"shufflevector ")?;
    push_two_typed(out, scope, opds)?;
    out.extend_from_slice(b", ")?;
    Ok(())
}

/// A `shufflevector`.
pub(crate) fn push_shuffle(
    out: &mut Vec<u8>,
    scope: &Scope,
    mask: &[Lane],
    opds: &[Opd],
) -> Result<(), AllocError>
    ensures { OnOk result (out.new.items ≡ out.old.items ++ instructions.shuffle_text scope.now.names.now scope.now.globals.now mask.now opds.now) }
{
    push_shuffled(out, scope, opds)?;
    push_mask(out, mask)?;
    Ok(())
}
