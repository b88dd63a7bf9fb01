//! `StdSource` and `StdSink`: a source over a reader of std, and a sink over a writer of std.
//!
//! They are the edge that is trusted: each counts the failures of what it stands over, and tells the bytes that this tells. A
//! file or a terminal tells none. The value of both is what they stand over beside the count.

ghost use Rattle.std.specs.Prelude.{◌≡◌};
ghost use Rattle.vx_io.specs.Counted.{uncounted};

use crate::fault::next_count;
use crate::{Failed, Sink, Source};
use std::io::{Read, Write};
use std::marker::Model;

/// A source over a reader of std.
#[derive(Debug, Drop)]
pub struct StdSource<R> {
    reader: R,
    faults: u64,
}

impl<R> Model for StdSource<R> {
    ghost use Rattle.vx_io.specs.Counted.{Counted};

    ghost Value = { Counted R };

    ghost view = { λ s. record { inner = s.reader; faults = s.faults } };
}

impl<R: Read> StdSource<R> {
    /// A source over `reader`, in which no call has failed.
    pub fn new(reader: R) -> StdSource<R>
        ensures { result ≡ uncounted reader }
    {
        StdSource { reader, faults: 0 }
    }

    /// How many calls failed so far.
    pub fn faults(&self) -> u64
        ensures { result ≡ self.now.faults }
    {
        self.faults
    }
}

impl<R: Read> Source for StdSource<R> {
    ghost left = { λ s. R.remaining s.inner };

    ghost faults = { λ s. s.faults };

    fn read(&mut self, buf: &mut [u8]) -> Result<usize, Failed> {
        match self.reader.read(buf) {
            Ok(count) => Ok(count),
            Err(_) => {
                self.faults = next_count(self.faults);
                Err(Failed)
            }
        }
    }
}

/// A sink over a writer of std.
#[derive(Debug, Drop)]
pub struct StdSink<W> {
    writer: W,
    faults: u64,
}

impl<W> Model for StdSink<W> {
    ghost use Rattle.vx_io.specs.Counted.{Counted};

    ghost Value = { Counted W };

    ghost view = { λ s. record { inner = s.writer; faults = s.faults } };
}

impl<W: Write> StdSink<W> {
    /// A sink over `writer`, in which no call has failed.
    pub fn new(writer: W) -> StdSink<W>
        ensures { result ≡ uncounted writer }
    {
        StdSink { writer, faults: 0 }
    }

    /// How many calls failed so far; a call that took nothing is one.
    pub fn faults(&self) -> u64
        ensures { result ≡ self.now.faults }
    {
        self.faults
    }
}

impl<W: Write> Sink for StdSink<W> {
    ghost taken = { λ s. W.contents s.inner };

    ghost faults = { λ s. s.faults };

    fn write(&mut self, piece: &[u8]) -> Result<usize, Failed> {
        match self.writer.write(piece) {
            Ok(count) if count > 0 => Ok(count),
            _ => {
                self.faults = next_count(self.faults);
                Err(Failed)
            }
        }
    }
}
