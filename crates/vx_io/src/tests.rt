//! Tests of what no clause says: that each call can succeed, faults in mid-stream, and the readers and writers of std.

use crate::{
    MemSink, MemSource, ReadRefusal, StdSink, StdSource, SteadySink, SteadySource, WriteFault,
    read_all, write_all,
};
use std::collections::VecDeque;
use std::io;
use std::io::{Cursor, Read};
use std::test::Fail;

const TEXT: &[u8] = b"define i32 @f(ptr %p)";

// A reader that gives one byte, then fails once, and is then at its end.
#[derive(Drop)]
struct Flaky {
    calls: u8,
}

impl Read for Flaky {
    fn read(&mut self, buf: &mut [u8]) -> io::Result<usize> {
        self.calls = self.calls.saturating_add(1);
        match self.calls {
            1 if !buf.is_empty() => {
                buf[0] = b'x';
                Ok(1)
            }
            2 => Err(io::Error::from(io::ErrorKind::ConnectionReset)),
            _ => Ok(0),
        }
    }
}

#[test]
fn a_memory_source_gives_pieces_and_fails_at_its_calls(rt: HostRuntime) -> Result<(), Fail> {
    let cases: [(usize, &[u64], u64, Result<&[u8], ReadRefusal>, &[u8], u64); 8] = [
        (100, &[], 21, Ok(TEXT), b"", 0),
        (1, &[], 100, Ok(TEXT), b"", 0),
        (16, &[9], 100, Ok(TEXT), b"", 0),
        (16, &[0], 100, Err(ReadRefusal::ReadFault), TEXT, 1),
        (16, &[1], 100, Err(ReadRefusal::ReadFault), b"r %p)", 1),
        (16, &[7, 2], 100, Err(ReadRefusal::ReadFault), b"", 1),
        (16, &[], 20, Err(ReadRefusal::TooLong), b"", 0),
        (16, &[1], 0, Err(ReadRefusal::TooLong), b"r %p)", 0),
    ];
    for (piece, failing, limit, answer, rest, faults) in cases {
        assert!(rt; piece > 0);
        let mut source = MemSource::new(
            TEXT.to_vec(rt.alloc())?,
            piece,
            failing.to_vec(rt.alloc())?,
        );
        let read = read_all(rt.alloc(), &mut source, limit);
        match (&read, answer) {
            (Ok(bytes), Ok(wanted)) => assert_eq!(rt; bytes.as_slice(), wanted),
            (Err(refusal), Err(wanted)) => assert_eq!(rt; *refusal, wanted),
            _ => assert!(rt; false, "pieces of {piece}, limit {limit}"),
        }
        assert_eq!(rt; source.left(), rest, "pieces of {piece}, limit {limit}");
        assert_eq!(rt; source.faults(), faults, "pieces of {piece}, limit {limit}");
    }
    Ok(())
}

#[test]
fn what_follows_a_fault_is_read(rt: HostRuntime) -> Result<(), Fail> {
    let mut source = MemSource::new(TEXT.to_vec(rt.alloc())?, 16, [1].to_vec(rt.alloc())?);
    assert!(rt; read_all(rt.alloc(), &mut source, 100).is_err());
    assert_eq!(rt;
        read_all(rt.alloc(), &mut source, 100)?.as_slice(),
        b"r %p)".as_slice()
    );
    Ok(())
}

#[test]
fn a_memory_sink_takes_pieces_and_fails_at_its_calls(rt: HostRuntime) -> Result<(), Fail> {
    let cases: [(usize, &[u64], Result<(), WriteFault>, &[u8], u64); 5] = [
        (100, &[], Ok(()), TEXT, 0),
        (1, &[], Ok(()), TEXT, 0),
        (16, &[2], Ok(()), TEXT, 0),
        (16, &[1], Err(WriteFault), b"define i32 @f(pt", 1),
        (16, &[0, 1], Err(WriteFault), b"", 1),
    ];
    for (piece, failing, answer, taken, faults) in cases {
        assert!(rt; piece > 0);
        let mut sink = MemSink::new(rt.alloc(), piece, failing.to_vec(rt.alloc())?)?;
        assert_eq!(rt; write_all(&mut sink, TEXT), answer, "pieces of {piece}");
        assert_eq!(rt; sink.bytes(), taken, "pieces of {piece}");
        assert_eq!(rt; sink.faults(), faults, "pieces of {piece}");
    }
    Ok(())
}

#[test]
fn a_steady_pair_fails_only_for_want_of_room(rt: HostRuntime) -> Result<(), Fail> {
    let mut source = SteadySource::new(TEXT.to_vec(rt.alloc())?);
    assert_eq!(rt; source.left(), TEXT);
    assert_eq!(rt; read_all(rt.alloc(), &mut source, 21)?.as_slice(), TEXT);
    let cases: [(usize, Result<(), WriteFault>, &[u8], u64); 3] = [
        (21, Ok(()), TEXT, 0),
        (20, Err(WriteFault), b"", 1),
        (0, Err(WriteFault), b"", 1),
    ];
    for (capacity, answer, taken, faults) in cases {
        let mut sink = SteadySink::new(rt.alloc(), capacity)?;
        assert_eq!(rt; write_all(&mut sink, TEXT), answer, "room for {capacity}");
        assert_eq!(rt; sink.bytes(), taken, "room for {capacity}");
        assert_eq!(rt; sink.faults(), faults, "room for {capacity}");
    }
    Ok(())
}

#[test]
fn readers_and_writers_of_std(rt: HostRuntime) -> Result<(), Fail> {
    let mut source = StdSource::new(TEXT);
    assert_eq!(rt; read_all(rt.alloc(), &mut source, 21)?.as_slice(), TEXT);
    assert_eq!(rt; source.faults(), 0);

    let mut flaky = StdSource::new(Flaky { calls: 0 });
    assert!(rt;
        matches!(
            read_all(rt.alloc(), &mut flaky, 21),
            Err(ReadRefusal::ReadFault)
        )
    );
    assert_eq!(rt; flaky.faults(), 1);

    let mut queue: VecDeque<u8> = VecDeque::new(rt.alloc());
    let mut sink = StdSink::new(&mut queue);
    assert_eq!(rt; write_all(&mut sink, TEXT), Ok(()));
    assert_eq!(rt; sink.faults(), 0);
    assert_eq!(rt; &*queue.make_contiguous(), TEXT);

    let mut room = [0u8; 4];
    let mut full = StdSink::new(Cursor::new(room.as_mut_slice()));
    assert_eq!(rt; write_all(&mut full, TEXT), Err(WriteFault));
    assert_eq!(rt; full.faults(), 1);
    Ok(())
}
