//! That each call succeeds and refuses, once. Rows of words, starts and outcomes stand in the row files of the crate `rows`.

use super::*;
use ir_model::{Memory, Object, Outcome, Value, Values};
use ir_types::{
    Block, Blocks, Bytes, Func, Id, Insts, Item, Items, Module, Names, Param, Params, Ty,
};
use std::alloc::{AllocError, Global};
use std::process::Abort;
use std::test::Fail;

/// A row of words and the place of the fault; 99 where the words hold.
#[derive(Clone, Copy)]
struct Asked {
    words: &'static [&'static str],
    place: u32,
}

/// A row of the words after the options of `run`, and the start's text; a fault's place is written `word K`.
#[derive(Clone, Copy)]
struct Begun {
    words: &'static [&'static str],
    text: &'static [u8],
}

fn strings(alloc: Global, words: &[&str]) -> Result<Vec<String>, AllocError> {
    let mut all = Vec::new(alloc);
    for word in words {
        all.push(String::from_str(alloc, word)?)?;
    }
    Ok(all)
}

fn names(alloc: Global, words: &[&str]) -> Result<Names, AllocError> {
    let mut all = Names::new(alloc);
    for word in words {
        all.push(Bytes::from_slice(alloc, word.as_bytes())?)?;
    }
    Ok(all)
}

/// The place of the fault, 99 where there is none, and 98 for want of memory.
fn place_of<T: Drop>(read: Result<T, WordsRefusal>) -> u32 {
    match read {
        Ok(_) => 99,
        Err(WordsRefusal::Word { place }) => place,
        Err(WordsRefusal::OutOfMemory) => 98,
    }
}

fn check_words(rt: &impl Abort, alloc: Global, rows: &[Asked]) -> Result<(), Fail> {
    for row in rows {
        let words = strings(alloc, row.words)?;
        let place = place_of(command(alloc, words.as_slice()));
        assert_eq!(rt; place, row.place, "{:?}", row.words);
    }
    Ok(())
}

#[test]
fn words_are_read(rt: HostRuntime) -> Result<(), Fail> {
    let rows = [
        Asked {
            words: &["print"],
            place: 99,
        },
        Asked {
            words: &["run", "--steps", "5", "z(mem:00,<1,true>)", "@g=00"],
            place: 99,
        },
        Asked {
            words: &["run", "--steps", "5", "z(,)"],
            place: 3,
        },
        Asked {
            words: &["run", "--steps", "5", ""],
            place: 3,
        },
    ];
    check_words(&rt, rt.alloc(), &rows)
}

fn function(alloc: Global, name: &str, types: &[Ty]) -> Result<Item, AllocError> {
    let mut params = Params::new(alloc);
    for ty in types {
        params.push(Param {
            id: Id { region: 0, k: 0 },
            name: None,
            ty: *ty,
            attrs: Bytes::new(alloc),
            noalias: false,
        })?;
    }
    let mut blocks = Blocks::new(alloc);
    blocks.push(Block {
        name: None,
        insts: Insts::new(alloc),
    })?;
    Ok(Item::Func(Func {
        before: Bytes::new(alloc),
        ret: Ty::Void,
        name: Bytes::from_slice(alloc, name.as_bytes())?,
        params,
        after: Bytes::new(alloc),
        blocks,
    }))
}

/// A module with the globals `g` and `h`, and functions of several types.
fn module(alloc: Global) -> Result<Module, AllocError> {
    let row = Ty::Row { n: 2, w: 32 };
    let mut items = Items::new(alloc);
    items.push(Item::Kept(Bytes::new(alloc)))?;
    items.push(function(alloc, "d", &[row, row])?)?;
    items.push(Item::Opaque(Bytes::new(alloc)))?;
    items.push(function(alloc, "e", &[Ty::Int(32), Ty::Int(32)])?)?;
    items.push(function(alloc, "l", &[Ty::Ptr, Ty::Int(64)])?)?;
    items.push(function(alloc, "p", &[Ty::Ptr, Ty::Ptr, Ty::Ptr])?)?;
    items.push(function(alloc, "b", &[Ty::Int(1)])?)?;
    items.push(function(alloc, "b", &[Ty::Int(8)])?)?;
    Ok(Module {
        items,
        globals: names(alloc, &["g", "h"])?,
        big_endian_line: None,
    })
}

/// A start as one text: the function's number, each argument, and then the objects as an outcome that was cut.
fn start_text(alloc: Global, start: Start) -> Result<Vec<u8>, AllocError> {
    let mut text = Vec::new(alloc);
    text.push(b'0' + (start.func % 10) as u8)?;
    let args: Vec<Value> = start.args.into_vec();
    for value in args {
        let shown = Outcome::Returned {
            value: Some(value),
            memory: Memory::new(alloc),
        };
        let line = outcome_text(alloc, &shown, &Ty::Int(32))?;
        text.extend_from_slice(line.as_slice())?;
    }
    let cut = Outcome::Cut {
        memory: start.memory,
    };
    let lines = outcome_text(alloc, &cut, &Ty::Void)?;
    text.extend_from_slice(lines.as_slice())?;
    Ok(text)
}

fn begun_text(alloc: Global, m: &Module, words: &Names) -> Result<Vec<u8>, AllocError> {
    match start(alloc, m, words) {
        Ok(start) => start_text(alloc, start),
        Err(WordsRefusal::Word { place }) => {
            let mut text = Vec::from_slice(alloc, b"word ")?;
            text.push(b'0' + (place % 10) as u8)?;
            Ok(text)
        }
        Err(WordsRefusal::OutOfMemory) => Vec::from_slice(alloc, b"no memory"),
    }
}

fn check_starts(rt: &impl Abort, alloc: Global, rows: &[Begun]) -> Result<(), Fail> {
    let m = module(alloc)?;
    for row in rows {
        let words = names(alloc, row.words)?;
        let text = begun_text(alloc, &m, &words)?;
        assert_eq!(rt; text.as_slice(), row.text, "{:?}", row.words);
    }
    Ok(())
}

#[test]
fn starts(rt: HostRuntime) -> Result<(), Fail> {
    let rows = [
        Begun {
            words: &["d(<6,8>,<3,0>)"],
            text: b"0returned <6, 8>\nreturned <3, 0>\ncut\nobject 0:\nobject 1:\n",
        },
        Begun {
            words: &[
                "p(mem:??ff,arg:0+4,@h+9223372036854775807)",
                "@h=0102",
                "@g=",
            ],
            text: b"3returned object 2 + 0\nreturned object 2 + 4\nreturned object 1 + 9223372036854775807\ncut\nobject 0:\nobject 1: 0102\nobject 2: ??ff\n",
        },
        Begun {
            words: &["b(0)", "@k=00"],
            text: b"word 1",
        },
    ];
    check_starts(&rt, rt.alloc(), &rows)
}

fn object(alloc: Global, bytes: &[Option<u8>]) -> Result<Object, AllocError> {
    let mut object = Object::new(alloc);
    for byte in bytes {
        object.push(*byte)?;
    }
    Ok(object)
}

/// A memory of three objects, of which the second is empty.
fn memory(alloc: Global) -> Result<Memory, AllocError> {
    let mut memory = Memory::new(alloc);
    memory.push(object(alloc, &[Some(0), None, Some(171)])?)?;
    memory.push(object(alloc, &[])?)?;
    memory.push(object(alloc, &[Some(255)])?)?;
    Ok(memory)
}

fn returned(alloc: Global, value: Option<Value>) -> Result<Outcome, AllocError> {
    Ok(Outcome::Returned {
        value,
        memory: memory(alloc)?,
    })
}

/// Whether the text is `line`, and then the objects of the memory above.
fn has_line(text: &[u8], line: &[u8]) -> bool {
    let objects = b"\nobject 0: 00??ab\nobject 1:\nobject 2: ff\n".as_slice();
    text.strip_prefix(line) == Some(objects)
}

#[test]
fn outcomes(rt: HostRuntime) -> Result<(), Fail> {
    let alloc = rt.alloc();
    let cut = Outcome::Cut {
        memory: memory(alloc)?,
    };
    let text = outcome_text(alloc, &Outcome::Undefined, &Ty::Void)?;
    assert_eq!(rt; text.as_slice(), b"undefined\n".as_slice());
    assert!(rt; has_line(outcome_text(alloc, &cut, &Ty::Void)?.as_slice(), b"cut"));
    let o = returned(alloc, None)?;
    assert!(rt;
        has_line(
            outcome_text(alloc, &o, &Ty::Void)?.as_slice(),
            b"returned void"
        )
    );
    let o = returned(alloc, Some(Value::Lane(Some(4294967293))))?;
    assert!(rt;
        has_line(
            outcome_text(alloc, &o, &Ty::Int(32))?.as_slice(),
            b"returned -3"
        )
    );
    Ok(())
}
