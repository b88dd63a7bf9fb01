//! `Source`: what bytes are read from.
//!
//! A source means the bytes that it has left, where it tells them, and a count of the calls that failed in it. Bytes that were
//! read are the first of those left; a call that fails reads none and raises the count.

ghost use Rattle.std.specs.Prelude.{◌≡◌, ℕ, List, Option, ◌<◌, ◌≤◌, length, take, IfOk, OnOk, OnErr};
ghost use Rattle.std.specs.Io.KnownBytes.{Consumes, IsAtEnd, Keeps};
ghost use Rattle.vx_io.specs.Count.{Rose};

use crate::Failed;

/// What bytes are read from.
pub trait Source {
    // The bytes that reads will give from here on, where the source tells them.
    ghost left: { Self → Option (List ℕ) };

    // How many calls failed so far; it stops at the last value of a counter of 64 bits.
    ghost faults: { Self → ℕ };

    /// Reads some bytes into the front of `buf`, which is not empty, and gives how many: 1 up to the length of `buf`, or 0 at
    /// the end of the input. `Failed` comes only where the count of faults rose, and then no byte was read.
    fn read(&mut self, buf: &mut [u8]) -> Result<usize, Failed>
        requires { 0 < length buf.old }
        ensures bound { IfOk result (λ n. n ≤ length buf.new) }
        ensures bytes { IfOk result (λ n. Consumes (left self.old) (left self.new) (take n buf.new)) }
        ensures end { IfOk result (λ n. n ≡ 0 → IsAtEnd (left self.new)) }
        ensures kept { OnOk result (faults self.new ≡ faults self.old) }

        ensures unread { OnErr result (Keeps (left self.old) (left self.new)) }
        ensures fault { OnErr result (Rose (faults self.old) (faults self.new)) }
        ensures never_falls { faults self.old ≤ faults self.new };
}
