//! Operations on two lanes, which work on two vectors lane by lane.
//!
//! `each_pair` fails for want of memory alone. Undefined behaviour is `None`.

ghost use Rattle.std.specs.Prelude.{◌≡◌, IfOk};
ghost use Rattle.ir_model.specs.Operations.{each_pair};
ghost use Rattle.ir_interp.specs.Pairing.{IsNarrow, lanewise};

use crate::lanes::{bin_lane, chosen_by, cmp_lane};
use ir_types::Lits;
use std::alloc::Global;
use vx_list::OutOfMemory;
use vx_num::{BinOp, Flags, Lane, Pred};

/// An operation on two lanes.
#[derive(Clone, Copy)]
pub(crate) enum Pairing {
    /// A binary operation at a width.
    Bin { op: BinOp, flags: Flags, w: u8 },
    /// A comparison at a width.
    Cmp { pred: Pred, w: u8 },
    /// What a condition chooses.
    Choice(Lane),
}

impl Pairing {
    /// The operation on two lanes.
    pub(crate) fn lane(self, a: Lane, b: Lane) -> Option<Lane>
        requires { IsNarrow self }
        ensures { result ≡ lanewise self a b }
    {
        match self {
            Pairing::Bin { op, flags, w } => bin_lane(op, flags, w, a, b),
            Pairing::Cmp { pred, w } => cmp_lane(pred, w, a, b),
            Pairing::Choice(c) => Some(chosen_by(c, a, b)),
        }
    }

    /// The operation on the lanes of two vectors.
    pub(crate) fn each_pair(
        self,
        alloc: Global,
        left: &[Lane],
        right: &[Lane],
    ) -> Result<Option<Lits>, OutOfMemory>
        requires { IsNarrow self }
        ensures { IfOk result (λ lanes. lanes ≡ each_pair (lanewise self) left.now right.now) }
    {
        let mut done = Lits::new(alloc);
        let mut rest = right;
        for a in left {
            let [b, more @ ..] = rest else {
                return Ok(None);
            };
            let Some(lane) = self.lane(*a, *b) else {
                return Ok(None);
            };
            done.push(lane)?;
            rest = more;
        }
        match rest {
            [] => Ok(Some(done)),
            _ => Ok(None),
        }
    }
}
