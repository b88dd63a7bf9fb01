//! Tests of what no row of a file reaches: faults in mid-stream, and inputs at the limits.

use crate::sandvec_alone;
use std::alloc::Global;
use std::test::Fail;
use vx_io::{MemSink, MemSource, SteadySink, SteadySource};

const PLAIN: &[u8] =
    b"define void @a(ptr %p, ptr %q) {\n  %x = load i32, ptr %p\n  %y = add i32 %x, 4294967295\n  store i32 %y, ptr %q, align 4\n  ret void\n}\n";

fn as_words(alloc: Global, words: &[&str]) -> Result<Vec<String>, Fail> {
    let mut all = Vec::new(alloc);
    for word in words {
        all.push(String::from_str(alloc, word)?)?;
    }
    Ok(all)
}

#[test]
fn faults_come_in_mid_stream(rt: HostRuntime) -> Result<(), Fail> {
    let words = as_words(rt.alloc(), &["print"])?;
    let failing = [1u64];
    let mut input = MemSource::new(
        PLAIN.to_vec(rt.alloc())?,
        16,
        failing.as_slice().to_vec(rt.alloc())?,
    );
    let mut out = MemSink::new(rt.alloc(), 16, Vec::new(rt.alloc()))?;
    let mut err = MemSink::new(rt.alloc(), 5, Vec::new(rt.alloc()))?;
    assert_eq!(rt;
        sandvec_alone(rt.alloc(), words.as_slice(), &mut input, &mut out, &mut err),
        3
    );
    assert_eq!(rt; out.bytes(), b"".as_slice());
    assert_eq!(rt; err.bytes(), b"sandvec: read fault\n".as_slice());

    let mut whole = SteadySource::new(PLAIN.to_vec(rt.alloc())?);
    let mut short = MemSink::new(rt.alloc(), 16, failing.as_slice().to_vec(rt.alloc())?)?;
    let mut told = MemSink::new(rt.alloc(), 5, Vec::new(rt.alloc()))?;
    assert_eq!(rt;
        sandvec_alone(
            rt.alloc(),
            words.as_slice(),
            &mut whole,
            &mut short,
            &mut told
        ),
        4
    );
    assert_eq!(rt; short.bytes(), b"define void @a(p".as_slice());
    assert_eq!(rt; told.bytes(), b"sandvec: write fault\n".as_slice());
    Ok(())
}

#[test]
fn one_byte_past_the_limit_is_refused(rt: HostRuntime) -> Result<(), Fail> {
    let words = as_words(rt.alloc(), &["print"])?;
    for (bytes, status, wanted) in [
        (16_777_216usize, 0u8, b"".as_slice()),
        (16_777_217, 5, b"sandvec: limit: bytes\n".as_slice()),
    ] {
        let mut input = SteadySource::new(vec![in rt.alloc(); b' '; bytes]?);
        let mut out = SteadySink::new(rt.alloc(), 16)?;
        let mut err = SteadySink::new(rt.alloc(), 64)?;
        assert_eq!(rt;
            sandvec_alone(rt.alloc(), words.as_slice(), &mut input, &mut out, &mut err),
            status
        );
        assert_eq!(rt; err.bytes(), wanted);
        assert_eq!(rt; out.bytes(), b"".as_slice());
    }
    Ok(())
}

/// A function of `blocks` blocks with `adds` additions in the first, of a name that ends in a number.
fn large(alloc: Global, number: u8, adds: usize, blocks: usize) -> Result<Vec<u8>, Fail> {
    let mut text = Vec::new(alloc);
    text.extend_from_slice(b"define void @f")?;
    text.push(b'0' + number % 10)?;
    text.extend_from_slice(b"() {\n")?;
    for before in 0..adds {
        let number = before + 1;
        text.extend_from_slice(format!(in alloc; "%{number} = add i32 0, 0\n")?.as_bytes())?;
    }
    for _ in 0..blocks {
        text.extend_from_slice(b"ret void\n")?;
    }
    text.extend_from_slice(b"}\n")?;
    Ok(text)
}

#[test]
fn limits_are_told(rt: HostRuntime) -> Result<(), Fail> {
    let words = as_words(rt.alloc(), &["print"])?;
    let mut two = large(rt.alloc(), 0, 50_000, 1)?;
    two.extend_from_slice(large(rt.alloc(), 1, 50_000, 1)?.as_slice())?;
    let many = large(rt.alloc(), 0, 65_536, 1)?;
    let blocks = large(rt.alloc(), 0, 0, 4_097)?;
    for (bytes, wanted) in [
        (two, b"sandvec: limit: instructions\n".as_slice()),
        (many, b"sandvec: limit: values\n".as_slice()),
        (blocks, b"sandvec: limit: blocks\n".as_slice()),
    ] {
        let mut input = SteadySource::new(bytes);
        let mut out = SteadySink::new(rt.alloc(), 16)?;
        let mut err = SteadySink::new(rt.alloc(), 64)?;
        assert_eq!(rt;
            sandvec_alone(rt.alloc(), words.as_slice(), &mut input, &mut out, &mut err),
            5
        );
        assert_eq!(rt; err.bytes(), wanted);
        assert_eq!(rt; out.bytes(), b"".as_slice());
    }
    Ok(())
}
