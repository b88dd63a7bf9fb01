//! Small texts, line by line, and what they are as modules: the ids and their lines, and the rules of calls, which no text reaches yet.

use super::*;
use ir_lex::tokens;
use ir_line::{Body, DraftItem, DraftItems, Head, Line, Numbered, body_line, module_line};
use std::alloc::Global;
use std::process::Abort;
use std::test::Fail;

/// A function that is open: its header's line, its header, its lines.
#[derive(Drop)]
struct Open {
    line: u32,
    head: Head,
    body: Body,
}

/// The form of a line, inside a function or outside.
fn form_of(alloc: Global, inside: bool, line: &[u8], number: u32) -> Result<Line, Fail> {
    if line.len() >= 1 << 31 {
        return Ok(Line::Empty);
    }
    let words = tokens(alloc, line, number)?;
    if inside {
        Ok(body_line(alloc, line, words.as_slice(), number)?)
    } else {
        Ok(module_line(alloc, line, words.as_slice(), number)?)
    }
}

/// Adds a line outside functions.
fn add_outside(
    alloc: Global,
    items: &mut DraftItems,
    line: u32,
    form: Line,
) -> Result<Option<Open>, Fail> {
    match form {
        Line::Define { name: _name, head } => match head {
            Some(head) => {
                let body = Body::new(alloc);
                Ok(Some(Open { line, head, body }))
            }
            None => Ok(None),
        },
        Line::Kept(kept) => {
            items.push(DraftItem::Kept { line, kept })?;
            Ok(None)
        }
        _ => Ok(None),
    }
}

/// Adds a line of this form.
fn add(
    alloc: Global,
    items: &mut DraftItems,
    open: Option<Open>,
    number: u32,
    form: Line,
) -> Result<Option<Open>, Fail> {
    let Some(open) = open else {
        return add_outside(alloc, items, number, form);
    };
    let Open {
        line,
        head,
        mut body,
    } = open;
    match form {
        Line::Close => {
            items.push(DraftItem::Func { line, head, body })?;
            Ok(None)
        }
        form => {
            body.push(Numbered { line: number, form })?;
            Ok(Some(Open { line, head, body }))
        }
    }
}

/// The draft of these lines.
fn draft(alloc: Global, lines: &[&[u8]]) -> Result<Draft, Fail> {
    let mut items = DraftItems::new(alloc);
    let mut open: Option<Open> = None;
    let mut number: u32 = 0;
    for line in lines {
        number = number.saturating_add(1);
        let form = form_of(alloc, open.is_some(), *line, number)?;
        open = add(alloc, &mut items, open, number, form)?;
    }
    Ok(Draft { items })
}

fn is_unknown(
    rt: &impl Abort,
    alloc: Global,
    lines: &[&[u8]],
    at: u32,
    known_by: &[u8],
) -> Result<(), Fail> {
    let whole = resolve(alloc, draft(alloc, lines)?);
    match &whole {
        Err(ResolveRefusal::Unknown { line, name }) => {
            assert_eq!(rt; *line, at);
            assert!(rt; name.as_slice() == known_by);
        }
        _ => assert!(rt; false),
    }
    Ok(())
}

fn is_ill(rt: &impl Abort, alloc: Global, lines: &[&[u8]], at: u32) -> Result<(), Fail> {
    let whole = resolve(alloc, draft(alloc, lines)?);
    match &whole {
        Err(ResolveRefusal::IllTyped { line }) => {
            assert_eq!(rt; *line, at);
        }
        _ => assert!(rt; false),
    }
    Ok(())
}

fn is_fine(rt: &impl Abort, alloc: Global, lines: &[&[u8]], at: &[u32]) -> Result<(), Fail> {
    let whole = resolve(alloc, draft(alloc, lines)?);
    match &whole {
        Ok(whole) => assert!(rt; whole.lines.as_slice() == at),
        Err(_) => assert!(rt; false),
    }
    Ok(())
}

#[test]
fn names_that_are_unknown(rt: HostRuntime) -> Result<(), Fail> {
    let alloc = rt.alloc();
    // a callee in front of its argument, after what is ill typed
    is_unknown(
        &rt,
        alloc,
        &[
            b"declare void @k(i8)",
            b"define i8 @a() {",
            b"  call void @k(i8 %x)",
            b"  ret void",
            b"}",
        ],
        3,
        b"@k",
    )
}

#[test]
fn lines_that_are_ill_typed(rt: HostRuntime) -> Result<(), Fail> {
    let alloc = rt.alloc();
    // a call with another type
    is_ill(
        &rt,
        alloc,
        &[
            b"define i8 @k(i8 %x) {",
            b"  ret i8 %x",
            b"}",
            b"define void @a(i8 %x) {",
            b"  %y = call i8 @k(i8 %x)",
            b"  %z = call i8 @k(i16 1)",
            b"  ret void",
            b"}",
        ],
        6,
    )
}

#[test]
fn modules(rt: HostRuntime) -> Result<(), Fail> {
    let alloc = rt.alloc();
    // ids count over the module; an edge from a block that no walk reaches counts
    is_fine(
        &rt,
        alloc,
        &[
            b"@g = global i8 0",
            b"define void @a(i8, ptr %p) {",
            b"  store i8 %0, ptr @g",
            b"  ret void",
            b"}",
            b"define i8 @b(i1 %c) {",
            b"  br i1 %c, label %x, label %y",
            b"x:",
            b"  %v = phi i8 [ 1, %0 ], [ %v, %z ]",
            b"  call void @a(i8 %v, ptr @g)",
            b"  ret i8 %v",
            b"z:",
            b"  br label %x",
            b"y:",
            b"  unreachable",
            b"}",
        ],
        &[2, 2, 3, 4, 6, 7, 9, 10, 11, 13, 15],
    )
}
