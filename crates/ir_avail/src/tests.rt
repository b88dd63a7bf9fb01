//! A small function with the answer that follows by hand from its graph, and large ones. Rows of texts stand in the crate `rows`.

use super::*;
use ir_types::{Block, Bytes, Func, Id, Inst, Op, Opd, Param, Ty};
use std::alloc::AllocError;
use std::process::Abort;
use vx_list::{Seq, Short};

// what an instruction does to the graph
#[derive(Clone, Copy)]
enum Shape {
    Plain,
    Br(u32),
    CondBr(u32, u32),
    Ret,
}

use Shape::{Br, CondBr, Plain, Ret};

// the id of an instruction, its shape, and the ids that it uses
type Row = (u32, Shape, &'static [u32]);

// the blocks of a function whose parameter has id 0, and the use and the walk that are wanted
type Case = (
    &'static [&'static [Row]],
    Option<(u32, u32, &'static [u32])>,
);

const CASES: [Case; 1] = [
    // only one branch brings the value
    (
        &[
            &[(1, CondBr(1, 2), &[0])],
            &[(2, Plain, &[]), (3, Br(2), &[])],
            &[(4, Ret, &[2])],
        ],
        Some((4, 0, &[0, 2])),
    ),
];

#[test]
fn small_functions_are_judged(rt: HostRuntime) -> Result<(), AllocError> {
    let alloc = rt.alloc();
    for (blocks, want) in CASES {
        let mut list = Vec::new(alloc);
        for rows in blocks {
            list.push(block(alloc, rows)?)?;
        }
        let m = module(alloc, list)?;
        match (check(alloc, &m), want) {
            (Ok(()), None) => {},
            (Err(AvailRefusal::NotAvailable { user, slot, walk }), Some((k, number, blocks))) => {
                assert_eq!(rt; (user.region, user.k, slot), (0, k, number), "another use");
                assert!(rt; walk.as_slice() == blocks, "another walk to {k}");
            },
            (Err(AvailRefusal::OutOfMemory), _) => return Err(AllocError),
            (_, _) => panic!(rt; "a wrong verdict"),
        }
    }
    Ok(())
}

// 4,096 blocks of 16 values in a chain with a way back from each to the second, every value used in the next block; the blocks
// stand in the order of the chain, and then against it
#[test]
fn large_functions_are_judged(rt: HostRuntime) -> Result<(), AllocError> {
    let alloc = rt.alloc();
    for reversed in [false, true] {
        let mut list = Vec::new(alloc);
        for number in 0u32..4096 {
            list.push(link(alloc, reversed, number)?)?;
        }
        let m = module(alloc, list)?;
        match check(alloc, &m) {
            Ok(()) => {},
            Err(AvailRefusal::OutOfMemory) => return Err(AllocError),
            Err(AvailRefusal::NotAvailable { .. }) => panic!(rt; "a wrong verdict"),
        }
    }
    Ok(())
}

// the block of a number, which stands in the chain at its number or counted from the end
fn link(alloc: Global, reversed: bool, number: u32) -> Result<Block, AllocError> {
    let place = place_of(reversed, number);
    let mut insts = Seq::new(alloc);
    for k in 0u32..15 {
        let used = if place == 0 {
            0
        } else {
            place.wrapping_mul(16).wrapping_add(k).wrapping_sub(15)
        };
        insts.push(inst(
            alloc,
            (place.wrapping_mul(16).wrapping_add(k + 1), Plain, &[]),
            &[used],
        )?)?;
    }
    let last = if place == 4095 {
        Ret
    } else {
        CondBr(
            place_of(reversed, place.wrapping_add(1)),
            place_of(reversed, 1),
        )
    };
    insts.push(inst(
        alloc,
        (place.wrapping_mul(16).wrapping_add(16), last, &[]),
        &[0],
    )?)?;
    Ok(Block { name: None, insts })
}

// the number of a block at a place of the chain, and the place of a number
fn place_of(reversed: bool, number: u32) -> u32 {
    if reversed && number != 0 {
        4096u32.wrapping_sub(number)
    } else {
        number
    }
}

fn module(alloc: Global, blocks: Vec<Block>) -> Result<Module, AllocError> {
    let mut params = Seq::new(alloc);
    params.push(Param {
        id: Id { region: 0, k: 0 },
        name: None,
        ty: Ty::Int(1),
        attrs: Bytes::new(alloc),
        noalias: false,
    })?;
    let func = Func {
        before: Bytes::new(alloc),
        ret: Ty::Void,
        name: Bytes::new(alloc),
        params,
        after: Bytes::new(alloc),
        blocks: Seq::from_vec(blocks),
    };
    let mut items = Seq::new(alloc);
    items.push(Item::Kept(Bytes::new(alloc)))?;
    items.push(Item::Func(func))?;
    Ok(Module {
        items,
        globals: Seq::new(alloc),
        big_endian_line: None,
    })
}

fn block(alloc: Global, rows: &[Row]) -> Result<Block, AllocError> {
    let mut insts = Seq::new(alloc);
    for row in rows {
        insts.push(inst(alloc, *row, row.2)?)?;
    }
    Ok(Block { name: None, insts })
}

fn inst(alloc: Global, row: Row, uses: &[u32]) -> Result<Inst, AllocError> {
    let mut opds = Short::new(alloc);
    for k in uses {
        opds.push(Opd::Val(Id { region: 0, k: *k }))?;
    }
    Ok(Inst {
        id: Id {
            region: 0,
            k: row.0,
        },
        name: None,
        ty: Ty::Int(1),
        op: op(row.1),
        opds,
    })
}

fn op(shape: Shape) -> Op {
    match shape {
        Plain => Op::Select,
        Br(to) => Op::Br { to },
        CondBr(yes, no) => Op::CondBr { yes, no },
        Ret => Op::Ret,
    }
}
