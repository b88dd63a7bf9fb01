//! One list, walked from its head.
//!
//! `list` is the entry point. There are no more steps than slots. Want of memory is the only failure.

ghost use Rattle.std.specs.Prelude.{◌≡◌, IfOk};
ghost use Rattle.sb_uses.specs.Chains.{lists};

use crate::chains::Chains;
use ir_types::{Id, OutOfMemory, Uses};
use std::alloc::Global;

impl Chains {
    /// The uses of a value, newest first.
    pub(crate) fn list(&self, alloc: Global, value: Id) -> Result<Uses, OutOfMemory>
        ensures { IfOk result (λ uses. uses ≡ lists self.now value) }
    {
        let mut uses = Uses::new(alloc);
        let mut at = None;
        let mut left = self.slots.len();
        while left > 0 {
            let Some(used) = self.older(value, at) else {
                break;
            };
            uses.push(used)?;
            at = Some(used);
            left -= 1;
        }
        Ok(uses)
    }
}
