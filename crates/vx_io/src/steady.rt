//! `SteadySource` and `SteadySink`: a source and a sink that take no memory after they are made.
//!
//! The source never fails. The sink has its whole capacity from the start, and fails exactly where a piece does not fit in what
//! is left of it. So with room for all bytes neither fails, whatever the memory does.

ghost use Rattle.std.specs.Prelude.{◌≡◌, ◌↔◌, ◌+◌, ◌-◌, ◌<◌, ◌≤◌, [], ◌++◌, length, min, take, drop, Some, IfOk, OnOk, OnErr, IsOk, IsErr, MatchResult};
ghost use Rattle.std.specs.Io.KnownBytes.{Appends, Consumes, IsAtEnd, Keeps};
ghost use Rattle.vx_io.specs.Count.{Rose};
ghost use Rattle.vx_io.specs.Bounded.{after_taking, after_fault};

use crate::fault::next_count;
use crate::pieces::give;
use crate::{Failed, OutOfMemory, Sink, Source};
use std::alloc::Global;
use std::marker::Model;

/// A source in memory that never fails. Contracts see it as the bytes that are left.
#[derive(Debug, Drop)]
pub struct SteadySource {
    bytes: Vec<u8>,
    at: usize,
}

impl Model for SteadySource {
    ghost use Rattle.std.specs.Prelude.{ℕ, List, ◌≤◌, length, drop};

    ghost Value = { List ℕ };

    ghost view = { λ s. drop s.at s.bytes.items };

    ghost invariant = { λ s. s.at ≤ length s.bytes.items };
}

impl SteadySource {
    /// A source of `bytes`.
    pub fn new(bytes: Vec<u8>) -> SteadySource
        ensures { result ≡ bytes.items }
    {
        SteadySource { bytes, at: 0 }
    }

    /// The bytes that are left.
    pub fn left(&self) -> &[u8]
        ensures { result.now ≡ self.now }
    {
        &self.bytes[self.at..]
    }
}

impl Source for SteadySource {
    ghost left = { λ s. Some s };

    ghost faults = { λ _. 0 };

    fn read(&mut self, buf: &mut [u8]) -> Result<usize, Failed>
        requires { 0 < length buf.old }
        ensures bound { IfOk result (λ n. n ≤ length buf.new) }
        ensures bytes { IfOk result (λ n. Consumes (Some self.old) (Some self.new) (take n buf.new)) }
        ensures end { IfOk result (λ n. n ≡ 0 → IsAtEnd (Some self.new)) }

        // What it is for.
        ensures ok { IsOk result }
        ensures count { IfOk result (λ n. n ≡ min (length buf.old) (length self.old)) }
        ensures after { IfOk result (λ n. self.new ≡ drop n self.old) }
    {
        let most = buf.len();
        let given = give(&self.bytes[self.at..], most, buf);
        self.at += given;
        Ok(given)
    }
}

/// A sink in memory of a fixed capacity.
#[derive(Debug, Drop)]
pub struct SteadySink {
    bytes: Vec<u8>,
    capacity: usize,
    faults: u64,
}

impl Model for SteadySink {
    ghost use Rattle.std.specs.Prelude.{◌≤◌, vec_len, vec_capacity};
    ghost use Rattle.vx_io.specs.Bounded.{Bounded};

    ghost Value = { Bounded };

    ghost view = { λ s. record { taken = s.bytes.items; capacity = s.capacity; faults = s.faults } };

    ghost invariant = { λ s. (vec_len s.bytes ≤ s.capacity) × (s.capacity ≤ vec_capacity s.bytes) };
}

impl SteadySink {
    /// An empty sink with room for `capacity` bytes, all of it taken from memory here.
    pub fn new(alloc: Global, capacity: usize) -> Result<SteadySink, OutOfMemory>
        ensures { IfOk result (λ s. s ≡ record { taken = []; capacity = capacity; faults = 0 }) }
    {
        let bytes = Vec::with_capacity(alloc, capacity)?;
        Ok(SteadySink {
            bytes,
            capacity,
            faults: 0,
        })
    }

    /// The bytes that were taken.
    pub fn bytes(&self) -> &[u8]
        ensures { result.now ≡ self.now.taken }
    {
        self.bytes.as_slice()
    }

    /// How many pieces did not fit.
    pub fn faults(&self) -> u64
        ensures { result ≡ self.now.faults }
    {
        self.faults
    }
}

impl Sink for SteadySink {
    ghost taken = { λ s. Some s.taken };

    ghost faults = { λ s. s.faults };

    ghost room = { λ s. Some (s.capacity - length s.taken) };

    fn write(&mut self, piece: &[u8]) -> Result<usize, Failed>
        requires { 0 < length piece.now }
        ensures bound { IfOk result (λ n. n ≤ length piece.now) }
        ensures some { IfOk result (λ n. 0 < n) }
        ensures bytes { IfOk result (λ n. Appends (Some self.old.taken) (Some self.new.taken) (take n piece.now)) }
        ensures kept { OnOk result (self.new.faults ≡ self.old.faults) }

        ensures untaken { OnErr result (Keeps (Some self.old.taken) (Some self.new.taken)) }
        ensures fault { OnErr result (Rose self.old.faults self.new.faults) }
        ensures never_falls { self.old.faults ≤ self.new.faults }

        // What it is for.
        ensures exact { IsErr result ↔ (self.old.capacity < length self.old.taken + length piece.now) }
        ensures count { IfOk result (λ n. n ≡ length piece.now) }
        ensures after { MatchResult result (λ _. self.new ≡ after_taking self.old piece.now) (λ _. self.new ≡ after_fault self.old) }
    {
        if piece.len() > self.capacity - self.bytes.len() {
            self.faults = next_count(self.faults);
            return Err(Failed);
        }
        match self.bytes.extend_from_slice(piece) {
            Ok(()) => Ok(piece.len()),
            Err(_) => unreachable!(),
        }
    }
}
