//! `Sink`: what bytes are written to.
//!
//! A sink means the bytes that it has taken, where it tells them, and a count of the calls that failed in it. Bytes that were
//! taken stand at the end of those; a call that fails takes none and raises the count.

ghost use Rattle.std.specs.Prelude.{◌≡◌, ℕ, List, Option, None, ◌<◌, ◌≤◌, length, take, IfOk, IfSome, IsOk, OnOk, OnErr};
ghost use Rattle.std.specs.Io.KnownBytes.{Appends, Keeps};
ghost use Rattle.vx_io.specs.Count.{Rose};
ghost use Rattle.vx_io.specs.Room.{UsesRoom};

use crate::Failed;

/// What bytes are written to.
pub trait Sink {
    // The bytes that were taken so far, where the sink tells them.
    ghost taken: { Self → Option (List ℕ) };

    // How many calls failed so far; it stops at the last value of a counter of 64 bits.
    ghost faults: { Self → ℕ };

    // How many more bytes it takes without fail, where the sink knows. By default it knows of none.
    ghost room: { Self → Option ℕ } = { λ _. None };

    /// Takes some bytes from the front of `piece`, which is not empty, and gives how many: 1 up to the length of `piece`. A
    /// device that takes nothing has failed. `Failed` comes only where the count of faults rose, and then no byte was taken.
    fn write(&mut self, piece: &[u8]) -> Result<usize, Failed>
        requires { 0 < length piece.now }
        ensures bound { IfOk result (λ n. n ≤ length piece.now) }
        ensures some { IfOk result (λ n. 0 < n) }
        ensures bytes { IfOk result (λ n. Appends (taken self.old) (taken self.new) (take n piece.now)) }
        ensures kept { OnOk result (faults self.new ≡ faults self.old) }
        ensures fits { IfSome (room self.old) (λ k. length piece.now ≤ k → IsOk result) }
        ensures uses { IfOk result (λ n. UsesRoom (room self.old) (room self.new) n) }

        ensures untaken { OnErr result (Keeps (taken self.old) (taken self.new)) }
        ensures fault { OnErr result (Rose (faults self.old) (faults self.new)) }
        ensures never_falls { faults self.old ≤ faults self.new };
}
