//! Lines with their tokens and with their faults, written by hand, and a long line.

use super::*;

/// Lines, and the tokens of each.
const LINES: [(&[u8], &[&[u8]]); 16] = [
    (b"", &[]),
    (b" \t ; \"no string", &[]),
    (
        b"%x = add i32 %y, 7",
        &[b"%x", b"=", b"add", b"i32", b"%y", b",", b"7"],
    ),
    (
        b"@f @-$._9 %a.b-c$ @x@y",
        &[b"@f", b"@-$._9", b"%a.b-c$", b"@x", b"@y"],
    ),
    (
        b"@\"a b\" %\"q;r\"s @ \"t\"",
        &[b"@\"a b\"", b"%\"q;r\"", b"s", b"@", b"\"t\""],
    ),
    (
        b"%12ab %007 %1.5 @12 %",
        &[b"%12", b"ab", b"%007", b"%1", b".5", b"@", b"12", b"%"],
    ),
    (
        b"\"\" \"a;b\"c\"d\\22e\"",
        &[b"\"\"", b"\"a;b\"", b"c", b"\"d\\22e\""],
    ),
    (
        b"!0 !dbg.x !{ #1a ^2 ! #",
        &[b"!0", b"!dbg.x", b"!", b"{", b"#1a", b"^2", b"!", b"#"],
    ),
    (
        b"a-b -7 x_y $z 1.5e+3 ...",
        &[b"a-b", b"-7", b"x_y", b"$z", b"1.5e", b"+", b"3", b"..."],
    ),
    (
        b"<4 x i32>*(a,b)[]",
        &[
            b"<", b"4", b"x", b"i32", b">", b"*", b"(", b"a", b",", b"b", b")", b"[", b"]",
        ],
    ),
    (b"\tret\t\tvoid \t", &[b"ret", b"void"]),
    (b"br label %b;c %d", &[b"br", b"label", b"%b"]),
    (b"bb1: ; preds = \"", &[b"bb1", b":"]),
    (b"%@x!!", &[b"%", b"@x", b"!", b"!"]),
    (b"\xc3\xa9 \"\xff\"", &[b"\xc3", b"\xa9", b"\"\xff\""]),
    (b"@g=\"=\"=", &[b"@g", b"=", b"\"=\"", b"="]),
];

/// Lines, and the byte of the first fault of each.
const FAULTS: [(&[u8], u32); 14] = [
    (b"hi\x01", 3),
    (b"\x00", 1),
    (b"\x1f\x01", 1),
    (b"a\x7f", 2),
    (b"ret void\r", 9),
    (b"; it\x02", 5),
    (b"a \"b", 3),
    (b"%\"", 2),
    (b"\"a\" \"b\" \"", 9),
    (b"\x03 \"", 1),
    (b"\"\x03", 1),
    (b"\"\x03\"", 2),
    (b"\"; \x03\"", 4),
    (b"\"a\" ; \"\x04", 8),
];

#[test]
fn lines_are_cut(rt: HostRuntime) -> Result<(), LexRefusal> {
    for (line, want) in LINES {
        assert!(rt; line.len() < 1000);
        let found = tokens(rt.alloc(), line, 1)?;
        assert_eq!(rt; found.len(), want.len(), "the number of tokens");
        for i in 0..found.len() {
            let token = *found.get(i).expect(&rt, "a token");
            let bytes = *want.get(i).expect(&rt, "an expected token");
            assert!(rt; text(line, token) == bytes, "a token differs");
        }
    }
    Ok(())
}

#[test]
fn faults_are_named(rt: HostRuntime) {
    for (line, want) in FAULTS {
        assert!(rt; line.len() < 1000);
        match tokens(rt.alloc(), line, 7) {
            Err(LexRefusal::Lex { line, byte }) => assert_eq!(rt; (line, byte), (7, want)),
            _ => panic!(rt; "no fault is named"),
        }
    }
}

#[test]
fn a_long_line_is_cut(rt: HostRuntime) -> Result<(), LexRefusal> {
    let mut line = Vec::new(rt.alloc());
    for _ in 0..40_400 {
        line.extend_from_slice(b"%x = add i32 %y, 7 \"text\" ")?;
    }
    assert!(rt; line.len() >= 1 << 20 && line.len() < 1 << 21);
    let found = tokens(rt.alloc(), line.as_slice(), 1)?;
    assert!(rt; found.len() > 1 << 18);
    Ok(())
}
