//! Settings and prices, with the answers that the rules give.

use super::*;
use ir_types::{Id, Inst, Op, Opds, Table, Ty};
use std::alloc::Global;
use std::test::Fail;
use vx_num::{BinOp, Flags};

/// Words of one command, and the refusal that they get.
const FAULTS: [(&[&str], SettingRefusal); 10] = [
    (&["int=x"], SettingRefusal::BadSetting { index: 0 }),
    (&["int=1", "int=2"], SettingRefusal::TwiceSet { index: 1 }),
    (&["=5"], SettingRefusal::BadSetting { index: 0 }),
    (&["int="], SettingRefusal::BadSetting { index: 0 }),
    (&["int=05"], SettingRefusal::BadSetting { index: 0 }),
    (&["int=1000001"], SettingRefusal::BadSetting { index: 0 }),
    (&["zz=1"], SettingRefusal::BadSetting { index: 0 }),
    (&["int=1", "int=x"], SettingRefusal::BadSetting { index: 1 }),
    (
        &["mul=3", "int=+1", "mul=3"],
        SettingRefusal::BadSetting { index: 1 },
    ),
    (
        &["vmul=3", "mul=3", "vmul=3", "int"],
        SettingRefusal::TwiceSet { index: 2 },
    ),
];

fn words_of(alloc: Global, texts: &[&str]) -> Result<Vec<String>, Fail> {
    let mut words = Vec::new(alloc);
    for text in texts {
        words.push(String::from_str(alloc, text)?)?;
    }
    Ok(words)
}

#[test]
fn faulty_words_are_named(rt: HostRuntime) -> Result<(), Fail> {
    for (texts, refusal) in FAULTS {
        let words = words_of(rt.alloc(), texts)?;
        assert!(rt; words.len() < 1000);
        assert!(rt; with_settings(Table::base(), words.as_slice()) == Err(refusal));
    }
    Ok(())
}

#[test]
fn costs_are_set(rt: HostRuntime) -> Result<(), Fail> {
    let words = words_of(
        rt.alloc(),
        &["vint=0", "shuffle=1000000", "addr=7", "vdiv=12"],
    )?;
    assert!(rt; words.len() < 1000);
    let table = match with_settings(Table::base(), words.as_slice()) {
        Ok(table) => table,
        Err(_) => panic!(rt; "good settings are refused"),
    };
    let costs = [
        1, 0, 3, 3, 10, 12, 1, 1, 1, 1, 1, 1, 1, 1, 1, 1, 7, 1, 1, 1_000_000,
    ];
    assert_eq!(rt; table.costs, costs);
    Ok(())
}

fn inst(alloc: Global, ty: Ty, op: Op) -> Inst {
    Inst {
        id: Id { region: 0, k: 0 },
        name: None,
        ty,
        op,
        opds: Opds::new(alloc),
    }
}

fn bin(alloc: Global, ty: Ty, op: BinOp) -> Inst {
    let flags = Flags::default();
    inst(alloc, ty, Op::Bin { op, flags })
}

#[test]
fn prices_are_sums(rt: HostRuntime) -> Result<(), Fail> {
    let alloc = rt.alloc();
    let row = Ty::Row { n: 4, w: 32 };
    let mut list = Vec::new(alloc);
    list.push(bin(alloc, Ty::Int(32), BinOp::Add))?;
    list.push(bin(alloc, row, BinOp::Urem))?;
    list.push(bin(alloc, Ty::Int(32), BinOp::Srem))?;
    list.push(inst(alloc, row, Op::Store { align: 4 }))?;
    list.push(inst(alloc, Ty::Void, Op::Unreachable))?;
    assert_eq!(rt; price(list.as_slice(), &Table::base()), 1 + 40 + 10 + 1);
    assert_eq!(rt; price(list.as_slice(), &Table::unit()), 4);
    Ok(())
}
