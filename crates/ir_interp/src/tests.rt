//! What no text reaches: shapes that do not fit, a target that is no block; and that a run succeeds. Rows of runs stand in the crate
//! `rows`.

use crate::run;
use ir_model::{Memory, Outcome, Value, Values};
use ir_types::{
    Block, Blocks, Bytes, Func, Id, Inst, Insts, Item, Items, Literal, Lits, Module, Names, Op,
    Opd, Opds, Params, Ty,
};
use std::alloc::{AllocError, Global};
use vx_num::{BinOp, Flags};

/// A literal whose lanes are all this number.
fn literal(alloc: Global, ty: Ty, lanes: u32, number: u64) -> Result<Opd, AllocError> {
    let mut all = Lits::new(alloc);
    for _ in 0..lanes {
        all.push(Some(number))?;
    }
    Ok(Opd::Lit(Literal { ty, lanes: all }))
}

/// An instruction on some operands.
fn inst(alloc: Global, k: u32, ty: Ty, op: Op, operands: Vec<Opd>) -> Result<Inst, AllocError> {
    let mut opds = Opds::new(alloc);
    for operand in operands {
        opds.push(operand)?;
    }
    Ok(Inst {
        id: Id { region: 0, k },
        name: None,
        ty,
        op,
        opds,
    })
}

/// What the function of one block of these instructions comes to.
fn outcome_of(alloc: Global, insts: Insts) -> Result<Outcome, AllocError> {
    let mut blocks = Blocks::new(alloc);
    blocks.push(Block { name: None, insts })?;
    let mut items = Items::new(alloc);
    items.push(Item::Func(Func {
        before: Bytes::new(alloc),
        ret: Ty::Int(8),
        name: Bytes::new(alloc),
        params: Params::new(alloc),
        after: Bytes::new(alloc),
        blocks,
    }))?;
    let module = Module {
        items,
        globals: Names::new(alloc),
        big_endian_line: None,
    };
    run(
        alloc,
        &module,
        0,
        &Values::new(alloc),
        Memory::new(alloc),
        9,
    )
}

#[test]
fn a_function_returns(rt: HostRuntime) -> Result<(), AllocError> {
    let alloc = rt.alloc();
    let mut insts = Insts::new(alloc);
    let seven = literal(alloc, Ty::Int(8), 1, 7)?;
    insts.push(inst(alloc, 0, Ty::Void, Op::Ret, vec![in alloc; seven]?)?)?;
    match outcome_of(alloc, insts)? {
        Outcome::Returned {
            value: Some(Value::Lane(lane)),
            memory,
        } => assert!(rt; lane == Some(7) && memory.is_empty()),
        _ => assert!(rt; false, "no return of a lane"),
    }
    Ok(())
}

#[test]
fn a_branch_to_no_block_is_undefined(rt: HostRuntime) -> Result<(), AllocError> {
    let alloc = rt.alloc();
    let mut insts = Insts::new(alloc);
    insts.push(inst(alloc, 0, Ty::Void, Op::Br { to: 7 }, Vec::new(alloc))?)?;
    assert!(rt; matches!(&outcome_of(alloc, insts)?, Outcome::Undefined));
    Ok(())
}

#[test]
fn vectors_of_two_lengths_are_undefined(rt: HostRuntime) -> Result<(), AllocError> {
    let alloc = rt.alloc();
    let flags = Flags {
        nuw: false,
        nsw: false,
        exact: false,
        disjoint: false,
    };
    let add = Op::Bin {
        op: BinOp::Add,
        flags,
    };
    let row = Ty::Row { n: 2, w: 8 };
    let (long, short) = (literal(alloc, row, 2, 1)?, literal(alloc, row, 1, 1)?);
    let mut insts = Insts::new(alloc);
    insts.push(inst(alloc, 0, row, add, vec![in alloc; long, short]?)?)?;
    insts.push(inst(alloc, 1, Ty::Void, Op::Ret, Vec::new(alloc))?)?;
    assert!(rt; matches!(&outcome_of(alloc, insts)?, Outcome::Undefined));
    Ok(())
}
