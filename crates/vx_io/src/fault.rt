//! `Failed`: the answer of a source or a sink that failed in one call.
//!
//! It says nothing of the cause. The count of the object that failed has risen, and no byte moved.

ghost use Rattle.std.specs.Prelude.{◌≡◌};
ghost use Rattle.vx_io.specs.Count.{next_count};

use thiserror::Error;

/// That one call of a source or a sink failed.
#[derive(Clone, Copy, Debug, PartialEq, Eq, Error)]
#[error("the call failed")]
pub struct Failed;

// One more than a count, which stays at its last value.
pub(crate) fn next_count(count: u64) -> u64
    ensures { result ≡ next_count count }
{
    count.saturating_add(1)
}
