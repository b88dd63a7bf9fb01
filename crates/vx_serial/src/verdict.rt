//! `Verdict`: what comes of a region.
//!
//! Nothing here fails. When which comes of a region stands in `specs/Serial.antt`.

use crate::Cause;
use std::alloc::{AllocError, Global};
use vx_list::{Equal, TryClone};

/// What comes of a region, with the prices of what goes and of what is created.
#[derive(Clone, Copy, Debug, PartialEq, Eq)]
pub enum Verdict {
    /// It is rewritten: what is created costs less.
    Accepted { before: u64, after: u64 },
    /// It could be rewritten, and what is created does not cost less.
    Costly { before: u64, after: u64 },
    /// Its stores are not widened, for this cause.
    Unpackable { cause: Cause },
}

impl TryClone for Verdict {
    fn try_clone(&self, _alloc: Global) -> Result<Self, AllocError> {
        Ok(*self)
    }
}

impl Equal for Verdict {
    fn equal(&self, other: &Self) -> bool {
        match (self, other) {
            (
                Verdict::Accepted { before, after },
                Verdict::Accepted {
                    before: b,
                    after: a,
                },
            ) => before == b && after == a,
            (
                Verdict::Costly { before, after },
                Verdict::Costly {
                    before: b,
                    after: a,
                },
            ) => before == b && after == a,
            (Verdict::Unpackable { cause }, Verdict::Unpackable { cause: other }) => cause.equal(
                other,
            ),
            _ => false,
        }
    }
}
