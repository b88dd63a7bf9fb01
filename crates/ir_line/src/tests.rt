//! What no text reaches yet, calls, and what is read of a statement and of a header, written by hand.

ghost use Rattle.std.specs.Prelude.{◌+◌, ◌<◌, ◌^◌, length};

use super::*;
use ir_lex::{LexRefusal, tokens};
use ir_types::{Bytes, Op, Params, Texts, Ty};
use std::alloc::Global;
use vx_num::BinOp;

/// Calls that are forms.
const CALLS: [&[u8]; 14] = [
    b"call void @k()",
    b"notail call void @k()",
    b"%r = tail call noundef i32 @f(i32 noundef %a, ptr nonnull align 4 %p) #3",
    b"%r = call <2 x i32> @f(<2 x i32> <i32 1, i32 2>, i32 zeroext -1)",
    b"call void @k(<2 x i32> splat (i32 1), i1 true, ptr @g)",
    b"call void @k(<4 x i8> inreg_like zeroinitializer, ptr poison)",
    b"call void @k(i32 range(i32 0, 5) %x, ptr captures(none, @h) \"a\"=\"b\" @g)",
    b"call void @k(i32 foo(byval < , > [ ) %x)",
    b"call void @k(i32 align 4)",
    b"call elementtype(@g) void @k()",
    b"call fastcc void @k() nounwind #0 foo(( )), !dbg !4",
    b"%7 = notail call ptr @llvm.x.y(ptr %p), !srcloc !{ [",
    b"%r=call i1 @f(i1 false)",
    b"call void @k(ptr \"\xc3\xa9\" %p)",
];

/// Calls that are not.
const NO_CALLS: [&[u8]; 33] = [
    b"call i32 @f()",
    b"%r = call void @k()",
    b"musttail call void @k()",
    b"tail notail call void @k()",
    b"tail void @k()",
    b"call void @k(i32 byval(i32) %x)",
    b"call void @k(ptr sret(i32) %x)",
    b"call void @k(ptr inalloca(i32) %x)",
    b"call void @k(ptr preallocated(i32) %x)",
    b"call void @k(i32 inreg %x)",
    b"call void @k(ptr nest %x)",
    b"call void @k(ptr addrspace(1) %x)",
    b"call void @k() [ \"deopt\"() ]",
    b"call void @k())",
    b"call void @k()(",
    b"call void @k() ) (",
    b"call ) void @k()",
    b"call void (@k)()",
    b"call void (i32, ...) @k(i32 1)",
    b"call void %p()",
    b"call void @\"q\"()",
    b"call void @f",
    b"call void @f @k()",
    b"call void @k(",
    b"call void @k(i32)",
    b"call void @k(i32 1,)",
    b"call void @k(i32 %a i32 %b)",
    b"call void @k(i32 * %p)",
    b"call void @k(i32 _x %p)",
    b"call void @k(<2 x i32> <i32 1>)",
    b"call void @k(float %x)",
    b"call float @f()",
    b"%r call i32 @f()",
];

/// Calls of two arguments: the line, the result's name, TAIL, PRE, the name of the function, the attributes of each argument, POST.
const CALL_PARTS: [[&[u8]; 8]; 4] = [
    [
        b"%r = tail call noundef i32 @f(i32 noundef %a, ptr nonnull align 4 %p) #3",
        b"r",
        b"tail",
        b"noundef",
        b"f",
        b"noundef",
        b"nonnull align 4",
        b"#3",
    ],
    [
        b"  %007 =notail call  fastcc   range( i32 0, 5 ) i32 @g.1 ( i32  foo( 1 , 2 )bar 3 , i8 -4 ) #1  #2 , !dbg !4",
        b"7",
        b"notail",
        b"fastcc   range( i32 0, 5 )",
        b"g.1",
        b"foo( 1 , 2 )bar",
        b"",
        b"#1  #2",
    ],
    [
        b"%x = call i32 @f(<2 x i32> <i32 1, i32 2>, <4 x i8> noundef splat (i8 1)) ; comment",
        b"x",
        b"",
        b"",
        b"f",
        b"",
        b"noundef",
        b"",
    ],
    [
        b"%x = call <2 x i32> elementtype(@g) i32 @f(i32 align 4, i32 \"a\"=\"b\" %y) memory(none)",
        b"x",
        b"",
        b"<2 x i32> elementtype(@g)",
        b"f",
        b"align",
        b"\"a\"=\"b\"",
        b"memory(none)",
    ],
];

/// Whether a line inside a function has a form; a refusal names the number 5.
fn has_form(alloc: Global, line: &[u8]) -> Result<bool, LexRefusal>
    requires { length line.now + 1 < 2 ^ 32 }
{
    let t = tokens(alloc, line, 1)?;
    Ok(!matches!(
        &body_line(alloc, line, t.as_slice(), 5),
        Err(LineRefusal::NotALine { line: 5 })
    ))
}

#[test]
fn calls_are_forms(rt: HostRuntime) -> Result<(), LexRefusal> {
    for line in CALLS {
        assert!(rt; line.len() < 1000);
        assert!(rt; has_form(rt.alloc(), line)?, "a call is refused");
    }
    Ok(())
}

#[test]
fn other_calls_are_refused(rt: HostRuntime) -> Result<(), LexRefusal> {
    for line in NO_CALLS {
        assert!(rt; line.len() < 1000);
        assert!(rt; !has_form(rt.alloc(), line)?, "a call is read");
    }
    Ok(())
}

/// Whether a statement is `%7 = add nuw nsw i8 A, B`.
fn is_addition(stmt: Stmt) -> bool {
    let Stmt {
        result,
        ty,
        op,
        args,
        labels,
    } = stmt;
    let named = match result {
        Some(name) => name.as_slice() == b"7".as_slice(),
        None => false,
    };
    let adds = match op {
        Op::Bin { op, flags } => op == BinOp::Add
            && flags.nuw
            && flags.nsw
            && !flags.exact
            && !flags.disjoint,
        _ => false,
    };
    named && adds && ty == Ty::Int(8) && args.len() == 2 && labels.is_empty()
}

#[test]
fn a_statement_is_read(rt: HostRuntime) -> Result<(), LexRefusal> {
    let line = b"  %007 = add nsw nuw i8 255, -128, !dbg !1".as_slice();
    let t = tokens(rt.alloc(), line, 1)?;
    match body_line(rt.alloc(), line, t.as_slice(), 1) {
        Ok(Line::Stmt(stmt)) => assert!(rt; is_addition(stmt)),
        _ => panic!(rt; "no statement"),
    }
    Ok(())
}

/// Whether bytes are these.
fn says(bytes: &Bytes, text: &[u8]) -> bool {
    bytes.as_slice() == text
}

/// Whether a statement is a call of type i32 with these parts.
fn is_call(stmt: &Stmt, parts: [&[u8]; 8]) -> bool {
    let [_, result, tail, pre, callee, first, second, post] = parts;
    let named = match &stmt.result {
        Some(name) => says(name, result),
        None => false,
    };
    let calls = match &stmt.op {
        Op::Call(site) => says(&site.get().tail, tail)
            && says(&site.get().pre, pre)
            && says(&site.get().callee, callee)
            && says(&site.get().post, post)
            && has_attrs(&site.get().attrs, first, second),
        _ => false,
    };
    named && calls && stmt.ty == Ty::Int(32) && stmt.args.len() == 2 && stmt.labels.is_empty()
}

/// Whether the attributes are those of two arguments.
fn has_attrs(attrs: &Texts, first: &[u8], second: &[u8]) -> bool {
    match attrs.as_slice() {
        [a, b] => says(a, first) && says(b, second),
        _ => false,
    }
}

#[test]
fn calls_are_read(rt: HostRuntime) -> Result<(), LexRefusal> {
    for parts in CALL_PARTS {
        let line = parts[0];
        assert!(rt; line.len() < 1000);
        let t = tokens(rt.alloc(), line, 1)?;
        match body_line(rt.alloc(), line, t.as_slice(), 1) {
            Ok(Line::Stmt(stmt)) => assert!(rt; is_call(&stmt, parts)),
            _ => panic!(rt; "no call"),
        }
    }
    Ok(())
}

/// Whether a statement is a call of `k` without any more.
fn is_bare_call(stmt: &Stmt) -> bool {
    let calls = match &stmt.op {
        Op::Call(site) => site.get().tail.is_empty()
            && site.get().pre.is_empty()
            && says(&site.get().callee, b"k")
            && site.get().attrs.is_empty()
            && site.get().post.is_empty(),
        _ => false,
    };
    calls
        && stmt.result.is_none()
        && stmt.ty == Ty::Void
        && stmt.args.is_empty()
        && stmt.labels.is_empty()
}

/// Whether the arguments of a call are the local `a`, the symbol `g` and -1 of 32 bits.
fn has_arguments(stmt: &Stmt) -> bool {
    match stmt.args.as_slice() {
        [a, b, c] => a.ty == Ty::Int(8)
            && b.ty == Ty::Ptr
            && c.ty == Ty::Int(32)
            && matches!(&a.opd, Written::Local(name) if says(name, b"a"))
            && matches!(&b.opd, Written::Symbol(name) if says(name, b"g"))
            && matches!(&c.opd, Written::Lit(literal) if literal.lanes.as_lanes().as_slice() == [Some(4294967295)].as_slice()),
        _ => false,
    }
}

#[test]
fn parts_of_calls_may_be_absent(rt: HostRuntime) -> Result<(), LexRefusal> {
    let line = b"call void @k()".as_slice();
    let t = tokens(rt.alloc(), line, 1)?;
    match body_line(rt.alloc(), line, t.as_slice(), 1) {
        Ok(Line::Stmt(stmt)) => assert!(rt; is_bare_call(&stmt)),
        _ => panic!(rt; "no call"),
    }
    let line = b"call void @k(i8 %a, ptr nonnull @g, i32 zeroext -1)".as_slice();
    let t = tokens(rt.alloc(), line, 1)?;
    match body_line(rt.alloc(), line, t.as_slice(), 1) {
        Ok(Line::Stmt(stmt)) => assert!(rt; has_arguments(&stmt)),
        _ => panic!(rt; "no call"),
    }
    Ok(())
}

/// Whether the texts of a header are those of the test below.
fn has_texts(head: &Head) -> bool {
    head.name.as_slice() == b"f".as_slice()
        && head.before.as_slice() == b"dso_local".as_slice()
        && head.after.as_slice() == b"local_unnamed_addr #0".as_slice()
}

/// Whether the parameters are.
fn has_params(params: &Params) -> bool {
    match params.as_slice() {
        [first, second, third] => first.noalias
            && first.attrs.as_slice() == b"noalias noundef range(i32 0, 5)".as_slice()
            && second.name.is_none()
            && second.id.k == 1
            && !third.noalias
            && third.name.is_some(),
        _ => false,
    }
}

#[test]
fn a_header_is_read(rt: HostRuntime) -> Result<(), LexRefusal> {
    let line =
        b"define dso_local <4 x i32> @f(ptr noalias noundef range(i32 0, 5) %r, i32 \"a\"=\"b\", ptr captures(none, noalias) %2) local_unnamed_addr #0 {".as_slice();
    let t = tokens(rt.alloc(), line, 1)?;
    match module_line(rt.alloc(), line, t.as_slice(), 1) {
        Ok(Line::Define { name, head }) => match head {
            Some(head) => assert!(rt;
                name.is_some() && has_texts(&head) && has_params(&head.params)
            ),
            None => panic!(rt; "no header"),
        },
        _ => panic!(rt; "no function"),
    }
    Ok(())
}
