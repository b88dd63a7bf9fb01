//! A module is lifted, an instruction goes and comes back, and the module is as it was.

use super::*;
use ir_types::{
    Block, Blocks, Bytes, Func, Id, Inst, Insts, Item, Items, Module, Names, Op, Opd, Opds,
    OutOfMemory, Params, Ty,
};
use std::alloc::Global;
use std::test::Fail;
use vx_list::Equal;

// an instruction that takes the value before it
fn line(alloc: Global, k: u32) -> Result<Inst, OutOfMemory> {
    let mut opds = Opds::new(alloc);
    opds.push(Opd::Val(Id {
        region: 0,
        k: k.saturating_sub(1),
    }))?;
    Ok(Inst {
        id: Id { region: 0, k },
        name: None,
        ty: Ty::Int(32),
        op: Op::Select,
        opds,
    })
}

fn lines(alloc: Global, count: u32) -> Result<Insts, OutOfMemory> {
    let mut insts = Insts::new(alloc);
    for k in 0..count {
        insts.push(line(alloc, k)?)?;
    }
    Ok(insts)
}

// a function of one block
fn func(alloc: Global, insts: Insts) -> Result<Func, OutOfMemory> {
    let mut blocks = Blocks::new(alloc);
    blocks.push(Block { name: None, insts })?;
    Ok(Func {
        before: Bytes::new(alloc),
        ret: Ty::Void,
        name: Bytes::new(alloc),
        params: Params::new(alloc),
        after: Bytes::new(alloc),
        blocks,
    })
}

fn module(alloc: Global, count: u32) -> Result<Module, OutOfMemory> {
    let mut items = Items::new(alloc);
    items.push(Item::Func(func(alloc, lines(alloc, count)?)?))?;
    Ok(Module {
        items,
        globals: Names::new(alloc),
        big_endian_line: None,
    })
}

// takes an instruction out and puts it back
fn goes_and_comes(lines: &mut Lines, id: Id) -> Result<Option<Module>, OutOfMemory> {
    if lines.found(id).is_none() {
        return Ok(None);
    }
    let spot = lines.remove(id);
    let without = lines.lower()?;
    lines.bring_back(spot);
    Ok(Some(without))
}

#[test]
fn an_instruction_comes_back(rt: HostRuntime) -> Result<(), Fail> {
    let read = module(rt.alloc(), 3)?;
    let mut lines = Lines::lift(rt.alloc(), &read)?;
    let id = Id { region: 0, k: 1 };
    assert_eq!(rt; lines.next(id), Some(Id { region: 0, k: 2 }));
    let without = goes_and_comes(&mut lines, id)?;
    assert!(rt; without.is_some());
    if let Some(without) = without {
        assert!(rt; !without.equal(&read));
    }
    let again = lines.lower()?;
    assert!(rt; again.equal(&read));
    Ok(())
}
