//! `Kept`: a use that was taken out of its list, with its place there.
//!
//! Nothing here fails. An operand that is no value stands in no list, and nothing is kept of it. The methods here are those of
//! `UseLists` for one operand, whatever it is.

ghost use Rattle.std.specs.Prelude.{◌≡◌, ◌≤◌, ◌<◌, ◌+◌, true, IfSome};
ghost use Rattle.vx_view.specs.UsesAfter.{opd_added, opd_taken};
ghost use Rattle.sb_uses.specs.Chains.{lists, room};
ghost use Rattle.sb_uses.specs.Spots.{Keeps};
ghost use Rattle.sb_uses.specs.Stock.{HasSlot, LacksSlot, opd_kept, kept_back, FitsBack, IsKnown};

use crate::{Spot, UseLists};
use ir_types::{Id, Opd, Use};

/// A use that was taken out of a list.
#[derive(Clone, Copy, Debug)]
pub(crate) struct Kept {
    /// The value whose list it was in.
    pub(crate) value: Id,
    /// The slot that held the value.
    pub(crate) used: Use,
    /// Where it stood.
    pub(crate) spot: Spot,
}

impl UseLists {
    /// Puts a slot at the head of its value's list; there is room.
    pub(crate) fn add_slot(&mut self, user: Id, slot: u32, opd: &Opd)
        requires lacks { LacksSlot user slot opd.now (lists self.old) }
        requires room { 0 < room self.old }
        ensures now { lists self.new ≡ opd_added user slot opd.now (lists self.old) }
        ensures room { room self.old ≤ room self.new + 1 }
        ensures keeps { Keeps self.old self.new }
    {
        if let Opd::Val(value) = opd {
            if self.add(*value, Use { user, slot }).is_err() {
                unreachable!();
            }
        }
    }

    /// Takes a slot out of its value's list, and tells where it stood.
    pub(crate) fn take_slot(&mut self, user: Id, slot: u32, opd: &Opd) -> Option<Kept>
        requires { HasSlot user slot opd.now (lists self.old) }
        ensures now { lists self.new ≡ opd_taken user slot opd.now (lists self.old) }
        ensures kept { result ≡ opd_kept user slot opd.now (lists self.old) }
        ensures known { IsKnown self.new result }
        ensures room { room self.new ≡ room self.old }
        ensures keeps { Keeps self.old self.new }
    {
        match opd {
            Opd::Val(value) => {
                let used = Use { user, slot };
                let spot = self.take(*value, used);
                Some(Kept {
                    value: *value,
                    used,
                    spot,
                })
            }
            _ => None,
        }
    }

    /// Puts what was taken out back where it stood.
    pub(crate) fn put_slot(&mut self, kept: Option<Kept>)
        requires fits { FitsBack kept (lists self.old) }
        requires known { IsKnown self.old kept }
        ensures now { lists self.new ≡ kept_back kept (lists self.old) }
        ensures room { room self.new ≡ room self.old }
        ensures keeps { Keeps self.old self.new }
    {
        if let Some(Kept { value, used, spot }) = kept {
            self.put_back(value, used, spot);
        }
    }
}
