//! The first forms: which functions `pair` looks at.
//!
//! Each test is the definition of its name; none fails.

ghost use Rattle.std.specs.Prelude.{◌≡◌};
ghost use Rattle.std.specs.List.{list_all};
ghost use Rattle.vx_serial.specs.Pair as first;

use ir_types::{Block, Elem, Func, Inst, Op, Opd, Param, Ty};
use vx_num::{BinOp, Flags, Lane};

/// Whether the whole text of the function is of the first forms.
pub(crate) fn is_first_func(func: &Func) -> bool
    ensures { result ≡ first.is_first_func func.now }
{
    func.before.is_empty()
        && is_void(func.ret)
        && are_first_params(func.params.as_slice())
        && func.after.is_empty()
        && is_one_block(func.blocks.as_slice())
}

fn are_first_params(params: &[Param]) -> bool
    ensures { result ≡ list_all first.is_first_param params.now }
{
    params.iter().all(|param| is_first_param(param))
}

fn is_first_param(param: &Param) -> bool
    ensures { result ≡ first.is_first_param param.now }
{
    param.name.is_some()
        && (is_ptr(param.ty) || is_int(32, param.ty))
        && param.attrs.is_empty()
        && !param.noalias
}

fn is_one_block(blocks: &[Block]) -> bool
    ensures { result ≡ first.is_one_block blocks.now }
{
    match blocks {
        [block] => block.name.is_none() && is_straight(block.insts.as_slice()),
        _ => false,
    }
}

/// Whether there are statements, then `ret void` and nothing more.
fn is_straight(insts: &[Inst]) -> bool
    ensures { result ≡ first.is_straight insts.now }
{
    let mut rest = insts;
    while let [inst, more @ ..] = rest {
        if is_return(inst) {
            return more.is_empty();
        }
        if !is_statement(inst) {
            return false;
        }
        rest = more;
    }
    false
}

fn is_return(inst: &Inst) -> bool
    ensures { result ≡ first.is_return inst.now }
{
    is_void(inst.ty) && matches!(inst.op, Op::Ret) && inst.opds.is_empty()
}

fn is_statement(inst: &Inst) -> bool
    ensures { result ≡ first.is_statement inst.now }
{
    is_statement_of(&inst.op, inst.ty, inst.opds.as_slice()) && is_named(inst)
}

/// A result has a written name.
fn is_named(inst: &Inst) -> bool
    ensures { result ≡ first.is_named inst.now.op inst.now.name }
{
    match &inst.op {
        Op::Store { .. } => true,
        _ => inst.name.is_some(),
    }
}

fn is_statement_of(op: &Op, ty: Ty, opds: &[Opd]) -> bool
    ensures { result ≡ first.is_statement_of op.now ty opds.now }
{
    match (op, opds) {
        (Op::Load { .. }, [pointer]) => is_int(32, ty) && is_local(pointer),
        (
            Op::Bin {
                op: BinOp::Add,
                flags,
            },
            [left, right],
        ) => { is_int(32, ty) && is_plain(*flags) && is_operand(left) && is_operand(right) }
        (Op::Gep { elem, inbounds }, [pointer, index]) => {
            is_ptr(ty) && is_byte(*elem) && !*inbounds && is_local(pointer) && is_literal(64, index)
        }
        (Op::Store { .. }, [value, pointer]) => is_storable(ty, value) && is_local(pointer),
        _ => false,
    }
}

fn is_storable(ty: Ty, value: &Opd) -> bool
    ensures { result ≡ first.is_storable ty value.now }
{
    match (ty, value) {
        (Ty::Int(w), _) => w == 32 && is_operand(value),
        (Ty::Row { .. }, Opd::Lit(literal)) => {
            is_pair(ty)
                && is_pair(literal.ty)
                && are_two_numbers(literal.lanes.as_lanes().as_slice())
        }
        _ => false,
    }
}

fn is_operand(opd: &Opd) -> bool
    ensures { result ≡ first.is_operand opd.now }
{
    match opd {
        Opd::Val(_) => true,
        Opd::Lit(_) => is_literal(32, opd),
        Opd::Sym(_) => false,
    }
}

fn is_literal(w: u8, opd: &Opd) -> bool
    ensures { result ≡ first.is_literal w opd.now }
{
    match opd {
        Opd::Lit(literal) => is_int(w, literal.ty)
            && is_number(literal.lanes.as_lanes().as_slice()),
        _ => false,
    }
}

fn is_local(opd: &Opd) -> bool
    ensures { result ≡ first.is_local opd.now }
{
    matches!(opd, Opd::Val(_))
}

fn is_number(lanes: &[Lane]) -> bool
    ensures { result ≡ first.is_number lanes.now }
{
    matches!(lanes, [Some(_)])
}

fn are_two_numbers(lanes: &[Lane]) -> bool
    ensures { result ≡ first.are_two_numbers lanes.now }
{
    matches!(lanes, [Some(_), Some(_)])
}

fn is_plain(flags: Flags) -> bool
    ensures { result ≡ first.is_plain flags }
{
    !flags.nuw && !flags.nsw && !flags.exact && !flags.disjoint
}

fn is_byte(elem: Elem) -> bool
    ensures { result ≡ first.is_byte elem }
{
    match elem {
        Elem::One(ty) => is_int(8, ty),
        Elem::Array { .. } => false,
    }
}

fn is_pair(ty: Ty) -> bool
    ensures { result ≡ first.is_pair ty }
{
    match ty {
        Ty::Row { n, w } => n == 2 && w == 32,
        _ => false,
    }
}

fn is_void(ty: Ty) -> bool
    ensures { result ≡ first.is_void ty }
{
    matches!(ty, Ty::Void)
}

fn is_ptr(ty: Ty) -> bool
    ensures { result ≡ first.is_ptr ty }
{
    matches!(ty, Ty::Ptr)
}

fn is_int(w: u8, ty: Ty) -> bool
    ensures { result ≡ first.is_int w ty }
{
    match ty {
        Ty::Int(v) => v == w,
        _ => false,
    }
}
