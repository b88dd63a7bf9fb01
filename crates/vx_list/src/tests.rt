//! Lists at concrete types: bytes in one allocation, and numbers that outgrow their inline places.

use super::*;
use std::test::Fail;

#[test]
fn bytes_are_edited(rt: HostRuntime) -> Result<(), Fail> {
    let mut text: Seq<u8> = Seq::from_slice(rt.alloc(), b"ad")?;
    if text.len() == 2 {
        text.insert(1, b'c')?;
        text.insert(1, b'b')?;
    }
    text.extend_from_slice(b"ef")?;
    assert_eq!(rt; text.pop(), Some(b'f'));
    if let Some(first) = text.get_mut(0) {
        *first = b'A';
    }
    assert_eq!(rt; text.as_slice(), b"Abcde".as_slice());
    let copy = text.try_clone(rt.alloc())?;
    assert!(rt; copy.equal(&text));
    Ok(())
}

#[test]
fn numbers_outgrow_their_places(rt: HostRuntime) -> Result<(), Fail> {
    let mut numbers: Short<u32, 2> = Short::new(rt.alloc());
    for number in 0..5 {
        numbers.push(number)?;
    }
    if numbers.len() == 5 {
        assert_eq!(rt; numbers.remove(0), 0);
    }
    let copy = numbers.try_clone(rt.alloc())?;
    assert!(rt; copy.equal(&numbers));
    let few: Short<u32, 2> = Short::from_slice(rt.alloc(), &[1, 2])?;
    assert!(rt; !few.equal(&numbers));
    assert_eq!(rt; numbers.as_slice(), [1, 2, 3, 4].as_slice());
    Ok(())
}

#[test]
fn a_text_outgrows_its_places(rt: HostRuntime) -> Result<(), Fail> {
    let mut text = Text::from_slice(rt.alloc(), b"a text of twenty-two b")?;
    assert_eq!(rt; text.len(), 22);
    text.push(b'.')?;
    let copy = text.try_clone(rt.alloc())?;
    assert!(rt; copy.equal(&text));
    assert_eq!(rt; copy.as_slice(), b"a text of twenty-two b.".as_slice());
    Ok(())
}
