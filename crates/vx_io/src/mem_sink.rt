//! `MemSink`: a sink in memory that takes short pieces and fails when told to.
//!
//! It is for tests: its value is what it has taken, the most bytes of a call, the numbers of the calls that fail, the number of
//! the next call, and the count of faults. Finding no memory is a fault of the sink. The list of failing calls is searched at
//! each call.

ghost use Rattle.std.specs.Prelude.{◌≡◌, ◌<◌, ◌≤◌, [], length, min, take, Some, IfOk, OnOk, OnErr, IsErr, MatchResult, Contains};
ghost use Rattle.std.specs.Io.KnownBytes.{Appends, Keeps};
ghost use Rattle.vx_io.specs.Count.{Rose};
ghost use Rattle.vx_io.specs.Collected.{after_taking, after_fault};

use crate::fault::next_count;
use crate::{Failed, OutOfMemory, Sink};
use std::alloc::Global;
use std::marker::Model;

/// A sink in memory that takes at most so many bytes a call, and fails at chosen calls.
#[derive(Debug, Drop)]
pub struct MemSink {
    bytes: Vec<u8>,
    piece: usize,
    failing: Vec<u64>,
    next: u64,
    faults: u64,
}

impl Model for MemSink {
    ghost use Rattle.std.specs.Prelude.{◌<◌};
    ghost use Rattle.vx_io.specs.Collected.{Collected};

    ghost Value = { Collected };

    ghost view = { λ s. record { taken = s.bytes.items; piece = s.piece; failing = s.failing.items; next = s.next; faults = s.faults } };

    ghost invariant = { λ s. 0 < s.piece };
}

impl MemSink {
    /// An empty sink that takes at most `piece` bytes a call, `piece` not being 0, and fails at those calls whose numbers,
    /// counted from 0, stand in `failing`, and where it finds no memory. The number of a call stops at the last value of a
    /// `u64`.
    pub fn new(alloc: Global, piece: usize, failing: Vec<u64>) -> Result<MemSink, OutOfMemory>
        requires { 0 < piece }
        ensures { IfOk result (λ s. s ≡ record { taken = []; piece = piece; failing = failing.items; next = 0; faults = 0 }) }
    {
        Ok(MemSink {
            bytes: Vec::new(alloc),
            piece,
            failing,
            next: 0,
            faults: 0,
        })
    }

    /// The bytes that were taken.
    pub fn bytes(&self) -> &[u8]
        ensures { result.now ≡ self.now.taken }
    {
        self.bytes.as_slice()
    }

    /// How many calls failed so far.
    pub fn faults(&self) -> u64
        ensures { result ≡ self.now.faults }
    {
        self.faults
    }
}

impl Sink for MemSink {
    ghost taken = { λ s. Some s.taken };

    ghost faults = { λ s. s.faults };

    fn write(&mut self, piece: &[u8]) -> Result<usize, Failed>
        requires { 0 < length piece.now }
        ensures bound { IfOk result (λ n. n ≤ length piece.now) }
        ensures some { IfOk result (λ n. 0 < n) }
        ensures bytes { IfOk result (λ n. Appends (Some self.old.taken) (Some self.new.taken) (take n piece.now)) }
        ensures kept { OnOk result (self.new.faults ≡ self.old.faults) }

        ensures untaken { OnErr result (Keeps (Some self.old.taken) (Some self.new.taken)) }
        ensures fault { OnErr result (Rose self.old.faults self.new.faults) }
        ensures never_falls { self.old.faults ≤ self.new.faults }

        // What it is for. It may also fail where it finds no memory.
        ensures fails { Contains self.old.failing self.old.next → IsErr result }
        ensures count { IfOk result (λ n. n ≡ min self.old.piece (length piece.now)) }
        ensures after { MatchResult result (λ n. self.new ≡ after_taking self.old (take n piece.now)) (λ _. self.new ≡ after_fault self.old) }
    {
        let fails = self.failing.contains(&self.next);
        self.next = next_count(self.next);
        let count = self.piece.min(piece.len());
        if fails || self.bytes.extend_from_slice(&piece[..count]).is_err() {
            self.faults = next_count(self.faults);
            return Err(Failed);
        }
        Ok(count)
    }
}
