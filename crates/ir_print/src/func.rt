//! Functions of the profile, put after what is written already.
//!
//! Want of memory is the only failure, and may leave a part of the text after.

ghost use Rattle.std.specs.Prelude.{◌≡◌, ◌++◌, OnOk, codes, slice_get};
ghost use Rattle.std.specs.Option.{option_copied};
ghost use Rattle.ir_print.specs.Text as text;

use crate::form::Shown;
use crate::inst::push_insts;
use crate::names::Names;
use crate::number::push_ty;
use crate::operand::{push_local, push_spaced};
use crate::scope::Scope;
use ir_types::{Block, Bytes, Func, Param};
use std::alloc::{AllocError, Global};

fn push_param(out: &mut Vec<u8>, names: &Names, param: &Param) -> Result<(), AllocError>
    ensures { OnOk result (out.new.items ≡ out.old.items ++ text.param_text names.now param.now) }
{
    push_ty(out, param.ty)?;
    push_spaced(out, param.attrs.as_slice())?;
    out.extend_from_slice(b" ")?;
    push_local(out, names, param.id)?;
    Ok(())
}

fn push_more_params(out: &mut Vec<u8>, names: &Names, params: &[Param]) -> Result<(), AllocError>
    ensures { OnOk result (out.new.items ≡ out.old.items ++ text.more_params names.now params.now) }
{
    for param in params {
        out.extend_from_slice(b", ")?;
        push_param(out, names, param)?;
    }
    Ok(())
}

fn push_params(out: &mut Vec<u8>, names: &Names, params: &[Param]) -> Result<(), AllocError>
    ensures { OnOk result (out.new.items ≡ out.old.items ++ text.params_text names.now params.now) }
{
    match params {
        [] => Ok(()),
        [first, rest @ ..] => {
            push_param(out, names, first)?;
            push_more_params(out, names, rest)?;
            Ok(())
        }
    }
}

/// The header up to its parameters.
fn push_head(out: &mut Vec<u8>, func: &Func) -> Result<(), AllocError>
    ensures { OnOk result (out.new.items ≡ out.old.items ++ text.head_text func.now) }
{
    out.extend_from_slice(b"define")?;
    push_spaced(out, func.before.as_slice())?;
    out.extend_from_slice(b" ")?;
    push_ty(out, func.ret)?;
    out.extend_from_slice(b" @")?;
    out.extend_from_slice(func.name.as_slice())?;
    Ok(())
}

/// The header line.
fn push_header(out: &mut Vec<u8>, names: &Names, func: &Func) -> Result<(), AllocError>
    ensures { OnOk result (out.new.items ≡ out.old.items ++ text.header_text names.now func.now) }
{
    push_head(out, func)?;
    out.extend_from_slice(b"(")?;
    push_params(out, names, func.params.as_slice())?;
    out.extend_from_slice(b")")?;
    push_spaced(out, func.after.as_slice())?;
    out.extend_from_slice(b" {\n")?;
    Ok(())
}

/// The line of a label, if there is one.
fn push_label_line(out: &mut Vec<u8>, name: Option<&Shown>) -> Result<(), AllocError>
    ensures { OnOk result (out.new.items ≡ out.old.items ++ text.label_line (option_copied name.entry)) }
{
    match name {
        None => Ok(()),
        Some(name) => {
            name.push_to(out)?;
            out.extend_from_slice(b":\n")?;
            Ok(())
        }
    }
}

/// The line of the first block's label, if that is written.
fn push_first_label(out: &mut Vec<u8>, name: &Option<Bytes>) -> Result<(), AllocError>
    ensures { OnOk result (out.new.items ≡ out.old.items ++ text.label_line name.now) }
{
    match name {
        None => Ok(()),
        Some(name) => {
            out.extend_from_slice(name.as_slice())?;
            out.extend_from_slice(b":\n")?;
            Ok(())
        }
    }
}

/// A block after another.
fn push_next_block(
    out: &mut Vec<u8>,
    scope: &Scope,
    at: u32,
    block: &Block,
) -> Result<(), AllocError>
    ensures { OnOk result (out.new.items ≡ out.old.items ++ text.next_block scope.now.names.now scope.now.globals.now at block.now) }
{
    out.extend_from_slice(b"\n")?;
    push_label_line(out, scope.names.label(at))?;
    push_insts(out, scope, block.insts.as_slice())?;
    Ok(())
}

/// The blocks after the first, of which the first has this number.
fn push_more_blocks(out: &mut Vec<u8>, scope: &Scope, blocks: &[Block]) -> Result<(), AllocError>
    ensures { OnOk result (out.new.items ≡ out.old.items ++ text.more_blocks scope.now.names.now scope.now.globals.now 1 blocks.now) }
{
    let mut at = 1u32;
    for block in blocks {
        push_next_block(out, scope, at, block)?;
        at = at.checked_add(1).ok_or(AllocError)?;
    }
    Ok(())
}

fn push_blocks(out: &mut Vec<u8>, scope: &Scope, blocks: &[Block]) -> Result<(), AllocError>
    ensures { OnOk result (out.new.items ≡ out.old.items ++ text.blocks_text scope.now.names.now scope.now.globals.now blocks.now) }
{
    match blocks {
        [] => Ok(()),
        [first, rest @ ..] => {
            push_first_label(out, &first.name)?;
            push_insts(out, scope, first.insts.as_slice())?;
            push_more_blocks(out, scope, rest)?;
            Ok(())
        }
    }
}

/// A function.
pub(crate) fn push_func<'a>(
    alloc: Global,
    out: &mut Vec<u8>,
    globals: &'a [Bytes],
    func: &'a Func,
) -> Result<(), AllocError>
    ensures { OnOk result (out.new.items ≡ out.old.items ++ text.func_text globals.now func.now) }
{
    let names = Names::of(alloc, func)?;
    push_header(out, &names, func)?;
    let scope = Scope {
        names: &names,
        globals,
    };
    push_blocks(out, &scope, func.blocks.as_slice())?;
    out.extend_from_slice(b"}\n")?;
    Ok(())
}
