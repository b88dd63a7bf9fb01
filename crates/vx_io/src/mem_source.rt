//! `MemSource`: a source in memory that gives short pieces and fails when told to.
//!
//! It is for tests: its value is what is left, the most bytes of a call, the numbers of the calls that fail, the number of the
//! next call, and the count of faults. It takes no memory. The list of failing calls is searched at each call.

ghost use Rattle.std.specs.Prelude.{◌≡◌, ◌↔◌, ◌<◌, ◌≤◌, length, min, take, Some, IfOk, OnOk, OnErr, IsErr, MatchResult, Contains};
ghost use Rattle.std.specs.Io.KnownBytes.{Consumes, IsAtEnd, Keeps};
ghost use Rattle.vx_io.specs.Count.{Rose};
ghost use Rattle.vx_io.specs.Given.{after_giving, after_fault};

use crate::fault::next_count;
use crate::pieces::give;
use crate::{Failed, Source};
use std::marker::Model;

/// A source in memory that gives at most so many bytes a call, and fails at chosen calls.
#[derive(Debug, Drop)]
pub struct MemSource {
    bytes: Vec<u8>,
    at: usize,
    piece: usize,
    failing: Vec<u64>,
    next: u64,
    faults: u64,
}

impl Model for MemSource {
    ghost use Rattle.std.specs.Prelude.{◌<◌, ◌≤◌, length, drop};
    ghost use Rattle.vx_io.specs.Given.{Given};

    ghost Value = { Given };

    ghost view = { λ s. record { left = drop s.at s.bytes.items; piece = s.piece; failing = s.failing.items; next = s.next; faults = s.faults } };

    ghost invariant = { λ s. (s.at ≤ length s.bytes.items) × (0 < s.piece) };
}

impl MemSource {
    /// A source of `bytes` that gives at most `piece` bytes a call, `piece` not being 0, and fails at exactly those calls whose
    /// numbers, counted from 0, stand in `failing`. The number of a call stops at the last value of a `u64`.
    pub fn new(bytes: Vec<u8>, piece: usize, failing: Vec<u64>) -> MemSource
        requires { 0 < piece }
        ensures { result ≡ record { left = bytes.items; piece = piece; failing = failing.items; next = 0; faults = 0 } }
    {
        MemSource {
            bytes,
            at: 0,
            piece,
            failing,
            next: 0,
            faults: 0,
        }
    }

    /// The bytes that are left.
    pub fn left(&self) -> &[u8]
        ensures { result.now ≡ self.now.left }
    {
        &self.bytes[self.at..]
    }

    /// How many calls failed so far.
    pub fn faults(&self) -> u64
        ensures { result ≡ self.now.faults }
    {
        self.faults
    }
}

impl Source for MemSource {
    ghost left = { λ s. Some s.left };

    ghost faults = { λ s. s.faults };

    fn read(&mut self, buf: &mut [u8]) -> Result<usize, Failed>
        requires { 0 < length buf.old }
        ensures bound { IfOk result (λ n. n ≤ length buf.new) }
        ensures bytes { IfOk result (λ n. Consumes (Some self.old.left) (Some self.new.left) (take n buf.new)) }
        ensures end { IfOk result (λ n. n ≡ 0 → IsAtEnd (Some self.new.left)) }
        ensures kept { OnOk result (self.new.faults ≡ self.old.faults) }

        ensures unread { OnErr result (Keeps (Some self.old.left) (Some self.new.left)) }
        ensures fault { OnErr result (Rose self.old.faults self.new.faults) }
        ensures never_falls { self.old.faults ≤ self.new.faults }

        // What it is for.
        ensures exact { IsErr result ↔ Contains self.old.failing self.old.next }
        ensures count { IfOk result (λ n. n ≡ min self.old.piece (min (length buf.old) (length self.old.left))) }
        ensures after { MatchResult result (λ n. self.new ≡ after_giving self.old n) (λ _. self.new ≡ after_fault self.old) }
    {
        let fails = self.failing.contains(&self.next);
        self.next = next_count(self.next);
        if fails {
            self.faults = next_count(self.faults);
            return Err(Failed);
        }
        let given = give(&self.bytes[self.at..], self.piece, buf);
        self.at += given;
        Ok(given)
    }
}
