//! Texts and what they are, written by hand: each rule with the line that it names.

use super::*;
use ir_line::{Body, DraftItem, Line};
use std::alloc::Global;
use std::process::Abort;
use std::test::Fail;
use vx_list::Equal;

/// A text and why it is no draft, if it is none.
#[derive(Clone, Copy)]
struct Row {
    text: &'static [u8],
    refusal: Option<ReadRefusal>,
}

/// Texts that are drafts.
const DRAFTS: [&[u8]; 21] = [
    b"",
    b"\n\n ; a comment\n",
    b"source_filename = \"a\"\n\ndeclare void @k()\n",
    b"define void @a() {\n  ret void\n}\n",
    // without a last line feed, and with carriage returns
    b"define void @a() {\n  ret void\n}",
    b"define void @a() {\r\n  ret void\r\n}\r\n",
    // empty lines inside, also inside a switch
    b"define void @a(i8 %x) {\n\n  switch i8 %x, label %b [\n\n    i8 1, label %b ; one\n  ; two\n  ]\n\nb:\n  ret void\n\n}\n",
    // unnamed parameters, blocks and results by one counter
    b"define i32 @a(i32, i32 %1, i32 %n) {\n  %3 = add i32 %0, %1\n  br label %4\n\n4:\n  %5 = add i32 %3, %n\n  ret i32 %5\n}\n",
    b"define i32 @a(i32 %0) {\n  %002 = add i32 %0, %0\n  ret i32 %2\n}\n",
    b"define void @a() {\n0:\n  br label %1\n1:\n  ret void\n}\n",
    // a block without a label, after a terminator and first
    b"define void @a() {\n  br label %1\n  ret void\n}\n",
    // an instruction without a result takes no number
    b"define void @a(ptr %p) {\n  store i8 1, ptr %p\n  %1 = load i8, ptr %p\n  ret void\n}\n",
    // phis first, one block that holds phis and a terminator
    b"define i8 @a() {\n  br label %b\nb:\n  %x = phi i8 [ 1, %0 ]\n  %y = phi i8 [ 2, %0 ]\n  ret i8 %x\n}\n",
    // an alloca in the first block, with a label and without
    b"define void @a() {\n  %x = alloca i8\n  ret void\n}\n",
    b"define void @a() {\nb:\n  %x = alloca i8\n  %y = alloca i8\n  ret void\n}\n",
    // a global, known or not, as an operand
    b"@g = global i8 0\ndefine void @a() {\n  store i8 1, ptr @g\n  ret void\n}\n",
    b"define void @a() {\n  store i8 1, ptr @g\n  ret void\n}\n",
    // two functions; names may be the same here
    b"define void @a() {\n  ret void\n}\ndefine void @a() {\nb:\n  br label %b\nb:\n  ret void\n}\n",
    // a layout whose pointers have 64 bits
    b"target datalayout = \"e-p:64:64\"\ndefine void @a() {\n  ret void\n}\n",
    // other pointers and no function
    b"target datalayout = \"e-p:32:32\"\n",
    // attachments
    b"define void @a() !dbg !1 {\n  ret void, !dbg !2\n}\n!1 = !{}\n",
];

fn lex(text: &'static [u8], line: u32, byte: u32) -> Row {
    Row {
        text,
        refusal: Some(ReadRefusal::Lex { line, byte }),
    }
}

fn no_line(text: &'static [u8], line: u32) -> Row {
    Row {
        text,
        refusal: Some(ReadRefusal::NotALine { line }),
    }
}

fn misplaced(text: &'static [u8], line: u32) -> Row {
    Row {
        text,
        refusal: Some(ReadRefusal::Misplaced { line }),
    }
}

/// Why a text is no draft.
fn refusal_of(alloc: Global, text: &[u8]) -> Option<ReadRefusal> {
    if text.len() >= 1 << 31 {
        return None;
    }
    match read(alloc, text) {
        Ok(_) => None,
        Err(refusal) => Some(refusal),
    }
}

fn rows_hold(rt: &impl Abort, alloc: Global, rows: &[Row]) {
    for row in rows {
        assert_eq!(rt; refusal_of(alloc, row.text), row.refusal);
    }
}

#[test]
fn drafts_are_read(rt: HostRuntime) {
    for text in DRAFTS {
        assert_eq!(&rt; refusal_of(rt.alloc(), text), None);
    }
}

/// Whether two texts are the same draft.
fn same_draft(alloc: Global, one: &[u8], other: &[u8]) -> bool {
    if one.len() >= 1 << 31 || other.len() >= 1 << 31 {
        return false;
    }
    match (read(alloc, one), read(alloc, other)) {
        (Ok(first), Ok(second)) => first.equal(&second),
        _ => false,
    }
}

#[test]
fn line_ends_make_no_difference(rt: HostRuntime) {
    let plain = b"@g = global i8 0\ndefine void @a() {\n  ret void\n}\n".as_slice();
    let with_returns = b"@g = global i8 0\r\ndefine void @a() {\r\n  ret void\r\n}\r\n".as_slice();
    let without_last = b"@g = global i8 0\ndefine void @a() {\n  ret void\n}".as_slice();
    assert!(&rt; same_draft(rt.alloc(), with_returns, plain));
    assert!(&rt; same_draft(rt.alloc(), without_last, plain));
}

#[test]
fn lexical_faults_come_first(rt: HostRuntime) {
    let rows = [
        lex(b"\x01", 1, 1),
        lex(b"hello\n\n  \x01", 3, 3),
        lex(b"; a\x7f", 1, 4),
        lex(b"hello \"a", 1, 7),
        lex(
            b"define void @a() {\n  call void @k()\n  ret void \x00\n",
            3,
            12,
        ),
        lex(b"a\r\r\n", 1, 2),
    ];
    rows_hold(&rt, rt.alloc(), &rows);
}

#[test]
fn lines_outside_the_profile(rt: HostRuntime) {
    let rows = [
        no_line(b"hello", 1),
        no_line(b"\n}\n", 2),
        no_line(b"  ret void\n", 1),
        no_line(b"define void @a() {\n  fence seq_cst\n}\n}\n", 4),
        // a header without its brace
        no_line(b"define void @a()\n{\n  ret void\n}\n", 1),
    ];
    rows_hold(&rt, rt.alloc(), &rows);
}

#[test]
fn misplaced_lines(rt: HostRuntime) {
    let rows = [
        // the closing brace is missing: the line after the last
        misplaced(b"define void @a() {\n  ret void\n", 3),
        misplaced(b"define void @a() {\n  ret void", 3),
        misplaced(b"define void @a() {\n  ret void\n\n", 4),
        misplaced(b"define void @a() {", 2),
        // a phi after another instruction
        misplaced(
            b"define void @a() {\n  %x = add i8 1, 2\n  %y = phi i8 [ 1, %b ]\n  ret void\n}\n",
            3,
        ),
        misplaced(
            b"define void @a() {\nb:\n  %y = phi i8 [ 1, %b ]\n  store i8 1, ptr @g\n  %z = phi i8 [ 1, %b ]\n  ret void\n}\n",
            5,
        ),
        // a label where the block before has no terminator
        misplaced(b"define void @a() {\nb:\nc:\n  ret void\n}\n", 3),
        misplaced(
            b"define void @a() {\n  %x = add i8 1, 2\nc:\n  ret void\n}\n",
            3,
        ),
        // a brace where the last block has none, and where there is no block
        misplaced(b"define void @a() {\n  %x = add i8 1, 2\n}\n", 3),
        misplaced(b"define void @a() {\nb:\n}\n", 3),
        misplaced(b"define void @a() {\n\n}\n", 3),
        // inside a switch: a brace, an instruction, a label
        misplaced(b"define void @a() {\n  switch i8 1, label %b [\n}\n", 3),
        misplaced(
            b"define void @a() {\n  switch i8 1, label %b [\n  ret void\n  ]\n}\n",
            3,
        ),
        misplaced(
            b"define void @a() {\n  switch i8 1, label %b [\n  i8 1, label %b\nb:\n  ret void\n}\n",
            4,
        ),
        misplaced(
            b"define void @a() {\n  switch i8 1, label %b [\n  %x = alloca i8\n  ]\n}\n",
            3,
        ),
        // outside one: a case, its end
        misplaced(b"define void @a() {\n  i8 1, label %b\n  ret void\n}\n", 2),
        misplaced(
            b"define void @a() {\n  switch i8 1, label %b [\n  ]\n  ]\n}\n",
            4,
        ),
        // numbers that are not the next: of parameters, results, blocks
        misplaced(b"define void @a(i8 %1) {\n  ret void\n}\n", 1),
        misplaced(b"\ndefine void @a(i8 %n, i8, i8 %0) {\n  ret void\n}\n", 2),
        misplaced(
            b"define void @a() {\n  %0 = add i8 1, 2\n  ret void\n}\n",
            2,
        ),
        misplaced(
            b"define void @a() {\nb:\n  %1 = add i8 1, 2\n  ret void\n}\n",
            3,
        ),
        misplaced(b"define void @a() {\n1:\n  ret void\n}\n", 2),
        misplaced(b"define void @a() {\n  ret void\n0:\n  ret void\n}\n", 3),
        misplaced(
            b"define void @a() {\n  ret void\n  %1 = add i8 1, 2\n  ret void\n}\n",
            3,
        ),
        misplaced(
            b"define void @a() {\n  %18446744073709551617 = add i8 1, 2\n  ret void\n}\n",
            2,
        ),
        // the first of two
        misplaced(b"define void @a() {\n\n}\nhello\n", 3),
        misplaced(b"define void @a() {\nb:\nc:\nd:\n  ret void\n}\n", 3),
    ];
    rows_hold(&rt, rt.alloc(), &rows);
}

/// A module of so many functions, each of so many blocks of so many instructions.
fn module_of(alloc: Global, functions: u32, blocks: u32, insts: u32) -> Result<Vec<u8>, Fail> {
    let mut text = Vec::new(alloc);
    for _ in 0..functions {
        text.extend_from_slice(b"define void @f(ptr %p) {\n")?;
        for _ in 0..blocks {
            text.extend_from_slice(b"b:\n")?;
            for _ in 1..insts {
                text.extend_from_slice(b"  store i8 1, ptr %p\n")?;
            }
            text.extend_from_slice(b"  br label %b\n")?;
        }
        text.extend_from_slice(b"}\n\n")?;
    }
    Ok(text)
}

/// Whether a module of this size is refused for this cause.
fn limit_holds(
    rt: &impl Abort,
    alloc: Global,
    size: (u32, u32, u32),
    which: Option<Limit>,
) -> Result<(), Fail> {
    let text = module_of(alloc, size.0, size.1, size.2)?;
    let expected = which.map(|which| ReadRefusal::Limit { which });
    assert_eq!(rt; refusal_of(alloc, text.as_slice()), expected);
    Ok(())
}

#[test]
fn limits_are_kept(rt: HostRuntime) -> Result<(), Fail> {
    // at each bound and past it; a value is the parameter too
    limit_holds(&rt, rt.alloc(), (100, 10, 100), None)?;
    limit_holds(&rt, rt.alloc(), (1, 1, 65_535), None)?;
    limit_holds(&rt, rt.alloc(), (1, 1, 65_536), Some(Limit::Values))?;
    limit_holds(&rt, rt.alloc(), (2, 4_096, 2), None)?;
    limit_holds(&rt, rt.alloc(), (1, 4_097, 2), Some(Limit::Blocks))?;
    // the first in order, though it is passed last
    limit_holds(&rt, rt.alloc(), (11, 4_097, 16), Some(Limit::Instructions))?;
    limit_holds(&rt, rt.alloc(), (11, 1, 9_091), Some(Limit::Instructions))?;
    limit_holds(&rt, rt.alloc(), (1, 8_192, 8), Some(Limit::Values))?;
    Ok(())
}

#[test]
fn a_switch_is_one_instruction(rt: HostRuntime) -> Result<(), Fail> {
    let mut text = Vec::new(rt.alloc());
    text.extend_from_slice(b"define void @f(i64 %x) {\n  switch i64 %x, label %b [\n")?;
    for _ in 0..100_001 {
        text.extend_from_slice(b"    i64 1, label %b\n")?;
    }
    text.extend_from_slice(b"  ]\n}\n")?;
    assert_eq!(&rt; refusal_of(rt.alloc(), text.as_slice()), None);
    Ok(())
}

#[test]
fn misplaced_comes_before_limits(rt: HostRuntime) -> Result<(), Fail> {
    let mut text = module_of(rt.alloc(), 1, 4_097, 16)?;
    text.extend_from_slice(b"define void @f() {")?;
    let line = 4_097 * 17 + 5;
    assert_eq!(&rt;
        refusal_of(rt.alloc(), text.as_slice()),
        Some(ReadRefusal::Misplaced { line })
    );
    Ok(())
}

#[test]
fn opaque_functions_pass_no_limit(rt: HostRuntime) -> Result<(), Fail> {
    let mut text = Vec::new(rt.alloc());
    text.extend_from_slice(b"define void @f(ptr %p) {\n")?;
    for _ in 0..100_001 {
        text.extend_from_slice(b"b:\n  store i8 1, ptr %p\n  br label %b\n")?;
    }
    text.extend_from_slice(b"  fence seq_cst\n}\n")?;
    assert_eq!(&rt; refusal_of(rt.alloc(), text.as_slice()), None);
    Ok(())
}

#[test]
fn opaque_functions_are_items(rt: HostRuntime) {
    let text =
        b"@g = global i8 0\n\ndefine void @a() {\r\n\n  fence seq_cst ; x\r\n}\ndefine void @\"b c\"() {\n}";
    let first = b"define void @a() {\n\n  fence seq_cst ; x\n}".as_slice();
    let second = b"define void @\"b c\"() {\n}".as_slice();
    match read(rt.alloc(), text.as_slice()) {
        Ok(draft) => match draft.items.as_slice() {
            [
                DraftItem::Kept { line: 1, .. },
                DraftItem::Opaque {
                    line: 3,
                    name: Some(name),
                    text: one,
                },
                DraftItem::Opaque {
                    line: 7,
                    name: None,
                    text: other,
                },
            ] => {
                assert!(&rt; name.as_slice() == b"a".as_slice());
                assert!(&rt; one.as_slice() == first && other.as_slice() == second);
            }
            _ => panic!(&rt; "other items"),
        },
        Err(_) => panic!(&rt; "no draft"),
    }
}

/// Whether the lines of a body are those of the test below.
fn has_lines(body: &Body) -> bool {
    match body.as_slice() {
        [first, second, third] => first.line == 4
            && second.line == 6
            && third.line == 7
            && matches!(&first.form, Line::Label(_))
            && matches!(&second.form, Line::Stmt(_))
            && matches!(&third.form, Line::Stmt(_)),
        _ => false,
    }
}

#[test]
fn items_and_lines_stand_in_order(rt: HostRuntime) {
    let text =
        b"@g = global i8 0  \n\ndefine void @a() {\nb:\n\n  store i8 1, ptr @g\n  ret void\n}\n\ndeclare void @k()\n";
    match read(rt.alloc(), text.as_slice()) {
        Ok(draft) => match draft.items.as_slice() {
            [
                DraftItem::Kept { line: 1, kept },
                DraftItem::Func {
                    line: 3,
                    head,
                    body,
                },
                DraftItem::Kept { line: 10, .. },
            ] => {
                assert!(&rt; kept.global && kept.text.as_slice() == b"@g = global i8 0".as_slice());
                assert!(&rt; head.name.as_slice() == b"a".as_slice() && has_lines(body));
            }
            _ => panic!(&rt; "other items"),
        },
        Err(_) => panic!(&rt; "no draft"),
    }
}
