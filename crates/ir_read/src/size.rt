//! `Size`: what limits are set for.
//!
//! `add` counts one function in, `passed` names the first limit that is passed.

ghost use Rattle.std.specs.Prelude.{◌≡◌, ◌+◌, IfOk, OnOk};
ghost use Rattle.ir_read.specs.Limits as limits;

use crate::Limit;
use crate::open_function::OpenFunction;
use std::alloc::AllocError;

/// The size of the functions read.
#[derive(Clone, Copy)]
pub(crate) struct Size {
    /// Instructions in all.
    pub(crate) insts: u64,
    /// The most parameters and instructions of one function.
    pub(crate) values: u64,
    /// The most blocks of one function.
    pub(crate) blocks: u64,
}

/// The sum. That there is such a number is a matter of memory: it counts what is kept.
fn sum(left: u64, right: u64) -> Result<u64, AllocError>
    ensures { IfOk result (λ all. all ≡ left + right) }
{
    left.checked_add(right).ok_or(AllocError)
}

impl Size {
    /// No functions.
    pub(crate) fn new() -> Size
        ensures { result ≡ limits.no_size }
    {
        Size {
            insts: 0,
            values: 0,
            blocks: 0,
        }
    }

    /// With one more function.
    #[tactic(auto, unfolding(crate::specs::Limits::with_function))]
    pub(crate) fn with(self, function: &OpenFunction) -> Result<Size, AllocError>
        ensures { IfOk result (λ size. size ≡ limits.with_function self function.now) }
    {
        let insts = u64::from(function.at.insts);
        let values = sum(function.head.params.len() as u64, insts)?;
        Ok(Size {
            insts: sum(self.insts, insts)?,
            values: self.values.max(values),
            blocks: self.blocks.max(u64::from(function.at.blocks)),
        })
    }

    /// The first limit that is passed.
    #[tactic(auto, unfolding(crate::specs::Limits::passed))]
    pub(crate) fn passed(self) -> Option<Limit>
        ensures { result ≡ limits.passed self }
    {
        if self.insts > 100_000 {
            Some(Limit::Instructions)
        } else if self.values > 65_536 {
            Some(Limit::Values)
        } else if self.blocks > 4_096 {
            Some(Limit::Blocks)
        } else {
            None
        }
    }
}
