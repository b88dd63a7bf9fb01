//! The slots of all lists, each with its neighbours.
//!
//! A list begins at its head, which names the newest use; the slot of a use names the next newer and the next older one. `None` stands
//! for the head where a newer use is named, and for the end where an older one is. A slot is found by the value and the use together.

ghost use Rattle.std.specs.Prelude.{◌≡◌, ◌&&◌, true, cond, Option, None, Some, IfSome};
ghost use Rattle.ir_types.specs.declared.id.Id.{Id};
ghost use Rattle.ir_types.specs.declared.id.Use.{Use};
ghost use Rattle.ir_types.specs.Available.{same_id};
ghost use Rattle.std.specs.HashMap.{get, spare};
ghost use Rattle.sb_uses.specs.declared.chains.Held.{Held};
ghost use Rattle.sb_uses.specs.Chains.{slot_of, same_held, next, prev, known, there, older_of, newer_of, same_end, SameRoom};
ghost use Rattle.sb_uses.specs.Linking.{IsLinked, IsUnlinked};

use ir_types::{Id, Use};
use std::collections::HashMap;

/// A value and a slot that holds it, or held it.
#[derive(Clone, Copy, Debug, PartialEq, Eq, Hash)]
pub(crate) struct Held {
    /// The value.
    pub(crate) value: Id,
    /// The instruction whose slot it is.
    pub(crate) user: Id,
    /// Counts the instruction's operands from 0.
    pub(crate) slot: u32,
}

/// The neighbours of a use in its list.
#[derive(Clone, Copy, Debug)]
pub(crate) struct Links {
    /// The next newer use; none where the use is the newest.
    pub(crate) newer: Option<Use>,
    /// The next older use; none where the use is the oldest.
    pub(crate) older: Option<Use>,
}

/// The slots of the uses of all values.
#[derive(Drop)]
pub(crate) struct Chains {
    /// The newest use of each value that was ever used.
    pub(crate) heads: HashMap<Id, Option<Use>>,
    /// The neighbours of each use that ever was.
    pub(crate) slots: HashMap<Held, Links>,
}

/// The name of a slot.
pub(crate) fn slot_of(value: Id, used: Use) -> Held
    ensures { result ≡ slot_of value used }
{
    Held {
        value,
        user: used.user,
        slot: used.slot,
    }
}

impl Chains {
    /// The use that is older than one, or the newest.
    pub(crate) fn older(&self, value: Id, at: Option<Use>) -> Option<Use>
        ensures { result ≡ next self.now value at }
    {
        match at {
            None => *self.heads.get(&value)?,
            Some(used) => self.older_in(value, used),
        }
    }

    /// The use that is older than one.
    fn older_in(&self, value: Id, used: Use) -> Option<Use>
        ensures { result ≡ older_of (get same_held self.now.slots (slot_of value used)) }
    {
        self.slots.get(&slot_of(value, used))?.older
    }

    /// The use that is newer than one.
    pub(crate) fn newer(&self, value: Id, used: Use) -> Option<Use>
        ensures { result ≡ prev self.now value used }
    {
        self.slots.get(&slot_of(value, used))?.newer
    }

    /// Writes the older neighbour of a use, or the newest use.
    pub(crate) fn set_older(&mut self, value: Id, at: Option<Use>, to: Option<Use>)
        requires { known self.old value at ≡ true }
        ensures next { (x : Id) (c : Option Use) → next self.new x c ≡ cond (same_id value x && same_end at c) to (next self.old x c) }
        ensures prev { (x : Id) (u : Use) → prev self.new x u ≡ prev self.old x u }
        ensures known { (x : Id) (c : Option Use) → known self.new x c ≡ known self.old x c }
        ensures room { SameRoom self.old self.new }
    {
        match at {
            None => self.set_head(value, to),
            Some(used) => {
                let newer = self.newer(value, used);
                self.set_links(slot_of(value, used), Links { newer, older: to });
            }
        }
    }

    /// Writes the newer neighbour of a use; the end has none.
    pub(crate) fn set_newer(&mut self, value: Id, at: Option<Use>, to: Option<Use>)
        requires { IfSome at (λ used. known self.old value (Some used) ≡ true) }
        ensures next { (x : Id) (c : Option Use) → next self.new x c ≡ next self.old x c }
        ensures prev { (x : Id) (u : Use) → prev self.new x u ≡ cond (same_id value x && same_end at (Some u)) to (prev self.old x u) }
        ensures known { (x : Id) (c : Option Use) → known self.new x c ≡ known self.old x c }
        ensures room { SameRoom self.old self.new }
    {
        if let Some(used) = at {
            let older = self.older(value, at);
            self.set_links(slot_of(value, used), Links { newer: to, older });
        }
    }

    /// Links a slot in after its newer neighbour, or after the head.
    pub(crate) fn link(&mut self, value: Id, newer: Option<Use>, used: Use)
        requires place { known self.old value newer ≡ true }
        requires slot { known self.old value (Some used) ≡ true }
        requires after { IfSome (next self.old value newer) (λ older. known self.old value (Some older) ≡ true) }
        ensures linked { IsLinked self.old self.new value newer used }
    {
        let older = self.older(value, newer);
        self.set_older(value, Some(used), older);
        self.set_newer(value, Some(used), newer);
        self.set_older(value, newer, Some(used));
        self.set_newer(value, older, Some(used));
    }

    /// Takes a slot out: its neighbours name each other, and it keeps the names of both.
    pub(crate) fn unlink(&mut self, value: Id, used: Use)
        requires place { known self.old value (prev self.old value used) ≡ true }
        requires after { IfSome (next self.old value (Some used)) (λ older. known self.old value (Some older) ≡ true) }
        ensures unlinked { IsUnlinked self.old self.new value used }
    {
        let newer = self.newer(value, used);
        let older = self.older(value, Some(used));
        self.set_older(value, newer, older);
        self.set_newer(value, older, newer);
    }

    /// Writes the newest use of a value that has a head.
    fn set_head(&mut self, value: Id, to: Option<Use>)
        requires { there (get same_id self.old.heads value) ≡ true }
        ensures now { (q : Id) → get same_id self.new.heads q ≡ cond (same_id value q) (Some to) (get same_id self.old.heads q) }
        ensures room { spare self.new.heads ≡ spare self.old.heads }
        ensures slots { self.new.slots ≡ self.old.slots }
    {
        if let Some(newest) = self.heads.get_mut(&value) {
            *newest = to;
        }
    }

    /// Writes the neighbours in a slot that is there.
    fn set_links(&mut self, slot: Held, links: Links)
        requires { there (get same_held self.old.slots slot) ≡ true }
        ensures now { (q : Held) → get same_held self.new.slots q ≡ cond (same_held slot q) (Some links) (get same_held self.old.slots q) }
        ensures room { spare self.new.slots ≡ spare self.old.slots }
        ensures heads { self.new.heads ≡ self.old.heads }
    {
        if let Some(place) = self.slots.get_mut(&slot) {
            *place = links;
        }
    }
}
