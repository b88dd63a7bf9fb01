//! A test of what no clause says: that the text which the definitions describe is the one that is meant, on a module with every
//! rule of numbering and spacing in it.

use crate::print;
use ir_types::{
    Block, Bytes, Elem, Func, Id, Inst, Item, Literal, Lits, Module, Op, Opd, Param, Ty,
};
use std::alloc::Global;
use std::test::Fail;
use vx_list::{Seq, Short};
use vx_num::{BinOp, Flags, Lane, Pred};

const WRITTEN: &[u8] =
    b"target triple = \"x\"\n\ndefine i32 @f(i1 %0, ptr noalias %p) {\n  %2 = alloca [4 x i8]\n  switch i8 poison, label %5 [\n    i8 -1, label %3\n    i8 5, label %5\n  ]\n\n3:\n  %4 = add nuw nsw i32 -2147483648, 7\n  br label %5\n\n5:\n  %6 = phi i32 [ 0, %1 ], [ %4, %3 ]\n  %7 = icmp ult i32 %6, 4\n  store <2 x i32> <i32 1, i32 poison>, ptr @g, align 4\n  br i1 %7, label %3, label %5\n}\n\ndefine void @h() {\n  fence seq_cst\n}\n\n@g = global i32 0\n";

fn id(k: u32) -> Id {
    Id { region: 0, k }
}

fn text(alloc: Global, bytes: &[u8]) -> Result<Bytes, Fail> {
    Ok(Bytes::from_slice(alloc, bytes)?)
}

fn literal(alloc: Global, ty: Ty, lanes: &[Lane]) -> Result<Opd, Fail> {
    let mut all = Lits::new(alloc);
    for lane in lanes {
        all.push(*lane)?;
    }
    Ok(Opd::Lit(Literal { ty, lanes: all }))
}

fn inst(alloc: Global, k: u32, ty: Ty, op: Op, operands: Vec<Opd>) -> Result<Inst, Fail> {
    let mut opds = Short::new(alloc);
    for opd in operands {
        opds.push(opd)?;
    }
    Ok(Inst {
        id: id(k),
        name: None,
        ty,
        op,
        opds,
    })
}

fn numbers(alloc: Global, items: &[u32]) -> Result<Seq<u32>, Fail> {
    Ok(Seq::from_vec(Vec::from_slice(alloc, items)?))
}

fn block(insts: Vec<Inst>) -> Block {
    Block {
        name: None,
        insts: Seq::from_vec(insts),
    }
}

fn first_block(alloc: Global) -> Result<Block, Fail> {
    let mut cases = Lits::new(alloc);
    cases.push(Some(255u64))?;
    cases.push(Some(5))?;
    let to = numbers(alloc, [1u32, 2].as_slice())?;
    let room = Op::Alloca {
        elem: Elem::Array { n: 4, w: 8 },
        align: None,
    };
    let number = literal(alloc, Ty::Int(8), [None].as_slice())?;
    Ok(block(vec![in alloc;
        inst(alloc, 2, Ty::Ptr, room, Vec::new(alloc))?,
        inst(
            alloc,
            3,
            Ty::Void,
            Op::Switch {
                other: 2,
                cases,
                to
            },
            vec![in alloc; number]?
        )?,
    ]?))
}

fn second_block(alloc: Global) -> Result<Block, Fail> {
    let flags = Flags {
        nuw: true,
        nsw: true,
        exact: true,
        disjoint: false,
    };
    let least = literal(alloc, Ty::Int(32), [Some(2147483648)].as_slice())?;
    let seven = literal(alloc, Ty::Int(32), [Some(7)].as_slice())?;
    Ok(block(vec![in alloc;
        inst(
            alloc,
            4,
            Ty::Int(32),
            Op::Bin {
                op: BinOp::Add,
                flags
            },
            vec![in alloc; least, seven]?
        )?,
        inst(alloc, 5, Ty::Void, Op::Br { to: 2 }, Vec::new(alloc))?,
    ]?))
}

fn from_both(alloc: Global) -> Result<Inst, Fail> {
    let zero = literal(alloc, Ty::Int(32), [Some(0)].as_slice())?;
    let mut opds = Vec::new(alloc);
    opds.push(zero)?;
    opds.push(Opd::Val(id(4)))?;
    let blocks = numbers(alloc, [0u32, 1].as_slice())?;
    inst(alloc, 6, Ty::Int(32), Op::Phi { blocks }, opds)
}

fn compared(alloc: Global) -> Result<Inst, Fail> {
    let four = literal(alloc, Ty::Int(32), [Some(4)].as_slice())?;
    let mut opds = Vec::new(alloc);
    opds.push(Opd::Val(id(6)))?;
    opds.push(four)?;
    inst(alloc, 7, Ty::Int(1), Op::Icmp { pred: Pred::Ult }, opds)
}

fn stored(alloc: Global) -> Result<Inst, Fail> {
    let row = literal(alloc, Ty::Row { n: 2, w: 32 }, [Some(1), None].as_slice())?;
    let mut opds = Vec::new(alloc);
    opds.push(row)?;
    opds.push(Opd::Sym(0))?;
    inst(
        alloc,
        8,
        Ty::Row { n: 2, w: 32 },
        Op::Store { align: 4 },
        opds,
    )
}

fn branched(alloc: Global) -> Result<Inst, Fail> {
    let mut opds = Vec::new(alloc);
    opds.push(Opd::Val(id(7)))?;
    inst(alloc, 9, Ty::Void, Op::CondBr { yes: 1, no: 2 }, opds)
}

fn third_block(alloc: Global) -> Result<Block, Fail> {
    let mut insts = Vec::new(alloc);
    insts.push(from_both(alloc)?)?;
    insts.push(compared(alloc)?)?;
    insts.push(stored(alloc)?)?;
    insts.push(branched(alloc)?)?;
    Ok(block(insts))
}

fn function(alloc: Global) -> Result<Func, Fail> {
    let condition = Param {
        id: id(0),
        name: None,
        ty: Ty::Int(1),
        attrs: Bytes::new(alloc),
        noalias: false,
    };
    let name = Some(text(alloc, b"p")?);
    let pointer = Param {
        id: id(1),
        name,
        ty: Ty::Ptr,
        attrs: text(alloc, b"noalias")?,
        noalias: true,
    };
    let blocks = vec![in alloc;
        first_block(alloc)?,
        second_block(alloc)?,
        third_block(alloc)?,
    ]?;
    Ok(Func {
        before: Bytes::new(alloc),
        ret: Ty::Int(32),
        name: text(alloc, b"f")?,
        params: Seq::from_vec(vec![in alloc; condition, pointer]?),
        after: Bytes::new(alloc),
        blocks: Seq::from_vec(blocks),
    })
}

#[test]
fn a_module_is_printed_as_it_is_meant(rt: HostRuntime) -> Result<(), Fail> {
    let alloc = rt.alloc();
    let items = vec![in alloc;
        Item::Kept(text(rt.alloc(), b"target triple = \"x\"")?),
        Item::Func(function(rt.alloc())?),
        Item::Opaque(text(rt.alloc(), b"define void @h() {\n  fence seq_cst\n}")?),
        Item::Kept(text(rt.alloc(), b"@g = global i32 0")?),
    ]?;
    let globals = Seq::from_vec(vec![in rt.alloc(); text(rt.alloc(), b"g")?]?);
    let module = Module {
        items: Seq::from_vec(items),
        globals,
        big_endian_line: None,
    };
    let written = print(rt.alloc(), &module)?;
    assert_eq!(rt; written.as_slice(), WRITTEN);
    Ok(())
}
