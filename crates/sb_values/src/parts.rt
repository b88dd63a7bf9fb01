//! `Parts`: the instructions of a module and their use lists, side by side.
//!
//! Each method here makes one kind of change in both, or takes one back; what it asks is a record of all that the steps want, so no step can
//! fail. That the lists are those of the instructions is kept by `Sandbox` above. Nothing here fails but for want of memory in `reserve`.

ghost use Rattle.std.specs.Prelude.{◌≡◌, ◌≤◌, IsOk, OnOk};
ghost use Rattle.std.specs.Option.{option_copied};
ghost use Rattle.vx_view.specs.declared.change.Change.TheVariants as of;
ghost use Rattle.sb_lines.specs.Arena.{seen};
ghost use Rattle.sb_lines.specs.Spots as spots;
ghost use Rattle.sb_values.specs.Sandboxes.{state, spare};
ghost use Rattle.sb_values.specs.Undoing as undoing;
ghost use Rattle.sb_values.specs.Undoing.{GoesBack, IsKept, undone, KeepsPlaces};
ghost use Rattle.sb_values.specs.Making.{CanInsert, IsHeld, CanReplace, CanShift, CanSet, CanMake, IsMade};

use crate::Undo;
use ir_types::{Id, Inst, Opd, OutOfMemory};
use sb_lines::{Before, Lines, Spot};
use sb_uses::Slots;
use vx_view::Change;

/// Instructions and use lists.
#[derive(Drop)]
pub(crate) struct Parts {
    pub(crate) lines: Lines,
    pub(crate) slots: Slots,
}

/// The operands of the instruction of an id; none where there is no such instruction.
fn opds_at(lines: &Lines, id: Id) -> &[Opd]
    ensures { result.now ≡ undoing.opds_at (seen lines.now) id }
{
    match lines.found(id) {
        Some(found) => found.inst.opds.as_slice(),
        None => &[],
    }
}

/// The operand in a slot of an instruction.
fn operand(lines: &Lines, id: Id, slot: u32) -> Option<&Opd>
    ensures { option_copied result ≡ spots.operand (seen lines.now) id slot }
{
    let found = lines.found(id)?;
    found.inst.opds.get(slot as usize)
}

impl Parts {
    /// Makes room for changes that cost so much.
    pub(crate) fn reserve(&mut self, cost: u64) -> Result<(), OutOfMemory>
        ensures same { state self.new ≡ state self.old }
        ensures keeps { KeepsPlaces self.old self.new }
        ensures ok { OnOk result (cost ≤ spare self.new) }
        ensures had_room { cost ≤ spare self.old → IsOk result }
        ensures room { spare self.old ≤ spare self.new }
    {
        self.lines.reserve(cost)?;
        self.slots.reserve(cost)
    }

    /// Makes a change, and gives what takes it back.
    pub(crate) fn make(&mut self, change: Change) -> Undo
        requires { CanMake change self.old }
        ensures { IsMade change result self.old self.new }
    {
        match change {
            Change::Insert { before, inst } => self.insert(before, inst),
            Change::Remove { id } => self.remove(id),
            Change::Move { id, before } => self.shift(id, before),
            Change::Replace { inst } => self.replace(inst),
            Change::SetOperand { id, slot, to } => self.set_operand(id, slot, to),
        }
    }

    /// Takes back the change that left this.
    pub(crate) fn take_back(&mut self, undo: Undo)
        requires can { GoesBack undo (state self.old) }
        requires few { (undone undo (state self.old)).held ≤ 4294967295 }
        requires kept { IsKept undo self.old }
        ensures now { state self.new ≡ undone undo (state self.old) }
        ensures keeps { KeepsPlaces self.old self.new }
    {
        match undo {
            Undo::Inserted { id } => self.withdraw(id),
            Undo::Removed { spot } => self.bring_back(spot),
            Undo::Moved { id, before } => self.shift_back(id, before),
            Undo::Replaced { old } => self.put_back(old),
            Undo::Set { id, slot, old } => self.set_back(id, slot, old),
        }
    }

    fn insert(&mut self, before: Id, inst: Inst) -> Undo
        requires { CanInsert before inst self.old }
        ensures { IsMade (of.Insert before inst) result self.old self.new }
    {
        let id = inst.id;
        self.slots.add(id, inst.opds.as_slice());
        self.lines.insert(Before::Line(before), inst);
        Undo::Inserted { id }
    }

    fn remove(&mut self, id: Id) -> Undo
        requires { IsHeld id self.old }
        ensures { IsMade (of.Remove id) result self.old self.new }
    {
        self.slots.take(id, opds_at(&self.lines, id));
        let spot = self.lines.remove(id);
        Undo::Removed { spot }
    }

    fn shift(&mut self, id: Id, before: Id) -> Undo
        requires { CanShift id before self.old }
        ensures { IsMade (of.Move id before) result self.old self.new }
    {
        let before = self.lines.shift(id, Before::Line(before));
        Undo::Moved { id, before }
    }

    fn replace(&mut self, inst: Inst) -> Undo
        requires { CanReplace inst self.old }
        ensures { IsMade (of.Replace inst) result self.old self.new }
    {
        self.slots.take(inst.id, opds_at(&self.lines, inst.id));
        self.slots.add(inst.id, inst.opds.as_slice());
        let old = self.lines.put(inst);
        Undo::Replaced { old }
    }

    fn set_operand(&mut self, id: Id, slot: u32, to: Opd) -> Undo
        requires { CanSet id slot to self.old }
        ensures { IsMade (of.SetOperand id slot to) result self.old self.new }
    {
        let Some(old) = operand(&self.lines, id, slot) else {
            unreachable!();
        };
        self.slots.replace(id, slot, old, &to);
        let old = self.lines.set_operand(id, slot, to);
        Undo::Set { id, slot, old }
    }

    /// An instruction that came goes.
    fn withdraw(&mut self, id: Id)
        requires { GoesBack (Undo.Inserted id) (state self.old) }
        ensures now { state self.new ≡ undone (Undo.Inserted id) (state self.old) }
        ensures keeps { KeepsPlaces self.old self.new }
    {
        self.slots.withdraw(id, opds_at(&self.lines, id));
        self.lines.remove(id);
    }

    /// An instruction that went comes back.
    fn bring_back(&mut self, spot: Spot)
        requires can { GoesBack (Undo.Removed spot) (state self.old) }
        requires few { (undone (Undo.Removed spot) (state self.old)).held ≤ 4294967295 }
        requires kept { IsKept (Undo.Removed spot) self.old }
        ensures now { state self.new ≡ undone (Undo.Removed spot) (state self.old) }
        ensures keeps { KeepsPlaces self.old self.new }
    {
        self.slots.restore(spot.inst.opds.as_slice());
        self.lines.bring_back(spot);
    }

    /// An instruction that was moved goes back.
    fn shift_back(&mut self, id: Id, before: Before)
        requires { GoesBack (Undo.Moved id before) (state self.old) }
        ensures now { state self.new ≡ undone (Undo.Moved id before) (state self.old) }
        ensures keeps { KeepsPlaces self.old self.new }
    {
        self.lines.shift(id, before);
    }

    /// The instruction before takes its place again.
    fn put_back(&mut self, old: Inst)
        requires can { GoesBack (Undo.Replaced old) (state self.old) }
        requires few { (undone (Undo.Replaced old) (state self.old)).held ≤ 4294967295 }
        ensures now { state self.new ≡ undone (Undo.Replaced old) (state self.old) }
        ensures keeps { KeepsPlaces self.old self.new }
    {
        self.slots.withdraw(old.id, opds_at(&self.lines, old.id));
        self.slots.restore(old.opds.as_slice());
        self.lines.put(old);
    }

    /// A slot gets the operand before.
    fn set_back(&mut self, id: Id, slot: u32, old: Opd)
        requires { GoesBack (Undo.Set id slot old) (state self.old) }
        ensures now { state self.new ≡ undone (Undo.Set id slot old) (state self.old) }
        ensures keeps { KeepsPlaces self.old self.new }
    {
        let Some(now) = operand(&self.lines, id, slot) else {
            unreachable!();
        };
        self.slots.set_back(id, slot, now);
        self.lines.set_operand(id, slot, old);
    }
}
