//! The right to draw, which one thread has at a time.
//!
//! A pass has no bytes. `make` gives the first one, `split` each other one; it may be sent to another thread, and may be
//! dropped, but only passes that were joined again count at `close`.
ghost use Rattle.std.specs.Prelude.{◌≡◌, []};

use crate::hand::Hand;
use atomic_table::Seat;

/// A right to draw from the tickets that it was made by. Its hand, in contracts `view`, has what was drawn through it.
#[derive(Drop)]
pub struct Pass {
    pub(crate) seat: Seat<(), Hand>,
    ghost holds_no_slot: { seat.me.1 ≡ [] },
}

impl Pass {
    pub(crate) fn of(seat: Seat<(), Hand>) -> Pass
        requires { seat.me.1 ≡ [] }
        ensures { result.seat ≡ seat }
    {
        Pass { seat }
    }
}
