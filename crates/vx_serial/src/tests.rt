//! A pair with the instructions that the rule leaves, and two blocks without one. Rows of texts stand in the crate `rows`.
//!
//! The function has the parameters `ptr %p` (value 0) and `ptr %q` (value 1).

use crate::pair;
use ir_types::{
    Block, Blocks, Bytes, Elem, Func, Id, Inst, Insts, Item, Items, Literal, Lits, Module, Names,
    Op, Opd, Opds, Param, Params, Ty,
};
use std::alloc::{AllocError, Global};

/// An instruction, by the number of its value and what its text below names, in this order.
#[derive(Clone, Copy)]
enum Line {
    /// `%k = getelementptr i8, ptr %from, i64 bytes`
    Step(u32, u32, u64),
    /// `store i32 number, ptr %to, align A`
    Store(u32, u64, u32, u64),
    /// `store <2 x i32> <i32 low, i32 high>, ptr %to, align A`
    Both(u32, [u64; 2], u32, u64),
    /// `%k = load i32, ptr %from, align 4`
    Load(u32, u32),
}

use Line::{Both, Load, Step, Store};

const Q4: Line = Step(2, 0, 4);

const LOW: Line = Store(5, 7, 0, 4);

const HIGH: Line = Store(6, 8, 2, 4);

/// Instructions with a pair, and what they become.
const PAIRED: [(&str, &[Line], &[Line]); 1] = [(
    "neighbours",
    &[Q4, LOW, HIGH],
    &[Q4, Both(6, [7, 8], 0, 4)],
)];

/// Instructions without one; whether `%p` is `noalias`.
const KEPT: [(&str, bool, &[Line]); 2] = [
    ("a load between", false, &[Q4, LOW, Load(3, 0), HIGH]),
    ("noalias", true, &[Q4, LOW, HIGH]),
];

fn id(k: u32) -> Id {
    Id { region: 0, k }
}

fn value(k: u32) -> Opd {
    Opd::Val(id(k))
}

fn name(alloc: Global) -> Result<Option<Bytes>, AllocError> {
    let mut letters = Bytes::new(alloc);
    letters.push(b'n')?;
    Ok(Some(letters))
}

fn literal(alloc: Global, ty: Ty, numbers: &[u64]) -> Result<Opd, AllocError> {
    let mut lanes = Lits::new(alloc);
    for number in numbers {
        lanes.push(Some(*number))?;
    }
    Ok(Opd::Lit(Literal { ty, lanes }))
}

fn opds(alloc: Global, first: Opd, second: Option<Opd>) -> Result<Opds, AllocError> {
    let mut all = Opds::new(alloc);
    all.push(first)?;
    if let Some(opd) = second {
        all.push(opd)?;
    }
    Ok(all)
}

/// A store of a literal.
fn store(
    alloc: Global,
    k: u32,
    ty: Ty,
    numbers: &[u64],
    to: u32,
    align: u64,
) -> Result<Inst, AllocError> {
    Ok(Inst {
        id: id(k),
        name: None,
        ty,
        op: Op::Store { align },
        opds: opds(alloc, literal(alloc, ty, numbers)?, Some(value(to)))?,
    })
}

/// An instruction with a result, on a value and perhaps a literal.
fn gives(
    alloc: Global,
    k: u32,
    ty: Ty,
    op: Op,
    from: u32,
    index: Option<Opd>,
) -> Result<Inst, AllocError> {
    Ok(Inst {
        id: id(k),
        name: name(alloc)?,
        ty,
        op,
        opds: opds(alloc, value(from), index)?,
    })
}

fn inst(alloc: Global, line: Line) -> Result<Inst, AllocError> {
    match line {
        Step(k, from, bytes) => {
            let op = Op::Gep {
                elem: Elem::One(Ty::Int(8)),
                inbounds: false,
            };
            let index = literal(alloc, Ty::Int(64), &[bytes])?;
            gives(alloc, k, Ty::Ptr, op, from, Some(index))
        }
        Store(k, number, to, align) => store(alloc, k, Ty::Int(32), &[number], to, align),
        Both(k, lanes, to, align) => store(alloc, k, Ty::Row { n: 2, w: 32 }, &lanes, to, align),
        Load(k, from) => gives(alloc, k, Ty::Int(32), Op::Load { align: 4 }, from, None),
    }
}

/// The block of these instructions and a `ret`.
fn block(alloc: Global, lines: &[Line]) -> Result<Block, AllocError> {
    let mut insts = Insts::new(alloc);
    for line in lines {
        insts.push(inst(alloc, *line)?)?;
    }
    insts.push(Inst {
        id: id(99),
        name: None,
        ty: Ty::Void,
        op: Op::Ret,
        opds: Opds::new(alloc),
    })?;
    Ok(Block { name: None, insts })
}

fn param(alloc: Global, k: u32, noalias: bool) -> Result<Param, AllocError> {
    Ok(Param {
        id: id(k),
        name: name(alloc)?,
        ty: Ty::Ptr,
        attrs: Bytes::new(alloc),
        noalias,
    })
}

fn module(alloc: Global, noalias: bool, lines: &[Line]) -> Result<Module, AllocError> {
    let mut params = Params::new(alloc);
    params.push(param(alloc, 0, noalias)?)?;
    params.push(param(alloc, 1, false)?)?;
    let mut blocks = Blocks::new(alloc);
    blocks.push(block(alloc, lines)?)?;
    let mut items = Items::new(alloc);
    items.push(Item::Func(Func {
        before: Bytes::new(alloc),
        ret: Ty::Void,
        name: Bytes::new(alloc),
        params,
        after: Bytes::new(alloc),
        blocks,
    }))?;
    Ok(Module {
        items,
        globals: Names::new(alloc),
        big_endian_line: None,
    })
}

/// Whether the pair of the first lines is the second lines.
fn pairs_to(alloc: Global, noalias: bool, old: &[Line], new: &[Line]) -> Result<bool, AllocError> {
    let paired = pair(alloc, module(alloc, noalias, old)?)?;
    Ok(paired.equal(&module(alloc, noalias, new)?))
}

#[test]
fn pairs_are_joined(rt: HostRuntime) -> Result<(), AllocError> {
    for (title, old, new) in PAIRED {
        assert!(rt; pairs_to(rt.alloc(), false, old, new)?, "{title}");
    }
    Ok(())
}

#[test]
fn others_are_kept(rt: HostRuntime) -> Result<(), AllocError> {
    for (title, noalias, lines) in KEPT {
        assert!(rt; pairs_to(rt.alloc(), noalias, lines, lines)?, "{title}");
    }
    Ok(())
}
