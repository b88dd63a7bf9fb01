//! Instructions on their lines, put after what is written already.
//!
//! Want of memory is the only failure, and may leave a part of the text after.

ghost use Rattle.std.specs.Prelude.{◌≡◌, ◌++◌, OnOk, codes};
ghost use Rattle.ir_print.specs.Instructions as instructions;
ghost use Rattle.ir_print.specs.Names.{is_void, is_store};

use crate::flow_ops::{push_br, push_call, push_cond, push_phi, push_ret, push_switch};
use crate::memory_ops::{push_alloca, push_gep, push_load, push_store};
use crate::names::Names;
use crate::operand::push_local;
use crate::scope::Scope;
use crate::value_ops::{
    push_bin, push_cast, push_extract, push_icmp, push_insert, push_select, push_shuffle,
};
use ir_types::{Inst, Op, Opd, Ty};
use std::alloc::AllocError;

/// What stands after the result.
fn push_act(
    out: &mut Vec<u8>,
    scope: &Scope,
    op: &Op,
    ty: Ty,
    opds: &[Opd],
) -> Result<(), AllocError>
    ensures { OnOk result (out.new.items ≡ out.old.items ++ instructions.act_text scope.now.names.now scope.now.globals.now op.now ty opds.now) }
{
    match op {
        Op::Bin { op, flags } => push_bin(out, scope, *op, *flags, ty, opds),
        Op::Icmp { pred } => push_icmp(out, scope, *pred, opds),
        Op::Cast { op, nneg } => push_cast(out, scope, *op, *nneg, ty, opds),
        Op::Select => push_select(out, scope, opds),
        Op::Extract => push_extract(out, scope, opds),
        Op::Insert => push_insert(out, scope, opds),
        Op::Shuffle { mask } => push_shuffle(out, scope, mask.as_lanes().as_slice(), opds),
        Op::Gep { elem, inbounds } => push_gep(out, scope, *elem, *inbounds, opds),
        Op::Load { align } => push_load(out, scope, *align, ty, opds),
        Op::Store { align } => push_store(out, scope, *align, ty, opds),
        Op::Alloca { elem, align } => push_alloca(out, *elem, *align),
        Op::Phi { blocks } => push_phi(out, scope, blocks.as_slice(), ty, opds),
        Op::Ret => push_ret(out, scope, opds),
        Op::Br { to } => push_br(out, scope.names, *to),
        Op::CondBr { yes, no } => push_cond(out, scope, *yes, *no, opds),
        Op::Switch { other, cases, to } => {
            push_switch(
                out,
                scope,
                *other,
                cases.as_lanes().as_slice(),
                to.as_slice(),
                opds,
            )
        }
        Op::Unreachable => push_unreachable(out),
        Op::Call(site) => {
            let site = site.get();
            push_call(out, scope, site, ty, opds)
        }
    }
}

fn push_unreachable(out: &mut Vec<u8>) -> Result<(), AllocError>
    ensures { OnOk result (out.new.items ≡ out.old.items ++ codes "unreachable") }
{
    out.extend_from_slice(b"unreachable")?;
    Ok(())
}

/// The result with its `=`, where there is one.
fn push_result(out: &mut Vec<u8>, names: &Names, inst: &Inst) -> Result<(), AllocError>
    ensures { OnOk result (out.new.items ≡ out.old.items ++ instructions.result_text names.now (is_void inst.now.ty) (is_store inst.now.op) inst.now) }
{
    match (inst.ty, &inst.op) {
        (Ty::Void, _) => Ok(()),
        (_, Op::Store { .. }) => Ok(()),
        _ => {
            push_local(out, names, inst.id)?;
            out.extend_from_slice(b" = ")?;
            Ok(())
        }
    }
}

/// One instruction on its line, a `switch` on several.
fn push_inst(out: &mut Vec<u8>, scope: &Scope, inst: &Inst) -> Result<(), AllocError>
    ensures { OnOk result (out.new.items ≡ out.old.items ++ instructions.inst_text scope.now.names.now scope.now.globals.now inst.now) }
{
    out.extend_from_slice(b"  ")?;
    push_result(out, scope.names, inst)?;
    push_act(out, scope, &inst.op, inst.ty, inst.opds.as_slice())?;
    out.extend_from_slice(b"\n")?;
    Ok(())
}

/// The instructions of a block.
pub(crate) fn push_insts(out: &mut Vec<u8>, scope: &Scope, insts: &[Inst]) -> Result<(), AllocError>
    ensures { OnOk result (out.new.items ≡ out.old.items ++ instructions.insts_text scope.now.names.now scope.now.globals.now insts.now) }
{
    for inst in insts {
        push_inst(out, scope, inst)?;
    }
    Ok(())
}
