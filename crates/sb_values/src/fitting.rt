//! Whether a change fits.
//!
//! `Parts::fits` is the entry point. Each kind of change has a test of its own, in constant time but for the operands that it brings. Nothing
//! here fails.

ghost use Rattle.std.specs.Prelude.{◌≡◌, ◌&&◌, slice_get};
ghost use Rattle.ir_types.specs.Formed as formed;
ghost use Rattle.ir_types.specs.Typed as of_type;
ghost use Rattle.vx_view.specs.Views as views;
ghost use Rattle.sb_values.specs.Sandboxes.{contents};
ghost use Rattle.sb_values.specs.Fitting as of_change;
ghost use Rattle.sb_values.specs.Fitting.{told, stands, holds, all_there};

use crate::parts::Parts;
use ir_types::{Id, Inst, Op, Opd, Place, Ty};
use vx_view::Change;

/// Whether an operation is a phi.
fn is_phi(op: &Op) -> bool
    ensures { result ≡ formed.is_phi op.now }
{
    match op {
        Op::Phi { .. } => true,
        _ => false,
    }
}

/// Whether an operation is an `alloca`.
fn is_alloca(op: &Op) -> bool
    ensures { result ≡ formed.is_alloca op.now }
{
    match op {
        Op::Alloca { .. } => true,
        _ => false,
    }
}

/// Whether an operation ends a block.
fn is_terminator(op: &Op) -> bool
    ensures { result ≡ formed.is_terminator op.now }
{
    match op {
        Op::Ret => true,
        Op::Br { .. } => true,
        Op::CondBr { .. } => true,
        Op::Switch { .. } => true,
        Op::Unreachable => true,
        _ => false,
    }
}

/// Whether both are one block.
fn same_place(a: Place, b: Place) -> bool
    ensures { result ≡ views.same_place a b }
{
    a.func == b.func && a.block == b.block
}

/// Whether both are one type, or none.
fn same_types(a: Option<Ty>, b: Option<Ty>) -> bool
    ensures { result ≡ of_change.same_types a b }
{
    match (a, b) {
        (None, None) => true,
        (Some(a), Some(b)) => a.same(b),
        _ => false,
    }
}

impl Parts {
    /// Whether a change fits.
    pub(crate) fn fits(&self, change: &Change) -> bool
        ensures { result ≡ of_change.fits (contents self.now) change.now }
    {
        match change {
            Change::Insert { before, inst } => self.fits_insert(*before, inst),
            Change::Remove { id } => self.fits_remove(*id),
            Change::Move { id, before } => self.fits_move(*id, *before),
            Change::Replace { inst } => self.fits_replace(inst),
            Change::SetOperand { id, slot, to } => self.fits_operand(*id, *slot, to),
        }
    }

    fn fits_insert(&self, before: Id, inst: &Inst) -> bool
        ensures { result ≡ of_change.fits_insert (contents self.now) before inst.now }
    {
        self.is_place(before) && !self.is_known(inst.id) && self.are_there(inst.opds.as_slice())
    }

    fn fits_remove(&self, id: Id) -> bool
        ensures { result ≡ of_change.fits_remove (contents self.now) id }
    {
        self.is_removable(id) && !self.slots.is_used(id)
    }

    fn fits_move(&self, id: Id, before: Id) -> bool
        ensures { result ≡ of_change.fits_move (contents self.now) id before }
    {
        self.is_movable_to(id, before) && !id.same(before)
    }

    fn fits_replace(&self, inst: &Inst) -> bool
        ensures { result ≡ of_change.fits_replace (contents self.now) inst.now }
    {
        self.has_type(inst.id, inst.ty) && self.are_there(inst.opds.as_slice())
    }

    fn fits_operand(&self, id: Id, slot: u32, to: &Opd) -> bool
        ensures { result ≡ of_change.fits_operand (contents self.now) id slot to.now }
    {
        self.fits_slot(id, slot, to) && self.is_there(to)
    }

    /// Whether an instruction may come before that of an id.
    fn is_place(&self, before: Id) -> bool
        ensures { result ≡ stands (told (contents self.now).own before) (λ t. of_change.is_place t.inst.op) }
    {
        match self.lines.found(before) {
            Some(found) => !is_phi(&found.inst.op),
            None => false,
        }
    }

    /// Whether what an instruction does lets it go.
    fn is_removable(&self, id: Id) -> bool
        ensures { result ≡ stands (told (contents self.now).own id) (λ t. of_change.is_removable t.inst.op) }
    {
        match self.lines.found(id) {
            Some(found) => {
                let op = &found.inst.op;
                !is_phi(op) && !is_alloca(op) && !is_terminator(op)
            }
            None => false,
        }
    }

    /// Whether an instruction may move to before another.
    fn is_movable_to(&self, id: Id, before: Id) -> bool
        ensures { result ≡ stands (told (contents self.now).own before) (λ t. of_change.is_place t.inst.op && stands (told (contents self.now).own id) (λ u. views.same_place u.place t.place && of_change.is_movable u.inst.op)) }
    {
        match self.lines.found(before) {
            Some(found) => !is_phi(&found.inst.op) && self.is_movable_in(id, found.place),
            None => false,
        }
    }

    /// Whether an instruction may move in a block.
    fn is_movable_in(&self, id: Id, place: Place) -> bool
        ensures { result ≡ stands (told (contents self.now).own id) (λ u. views.same_place u.place place && of_change.is_movable u.inst.op) }
    {
        match self.lines.found(id) {
            Some(found) => same_place(found.place, place) && is_movable(&found.inst.op),
            None => false,
        }
    }

    /// Whether an instruction has a type.
    fn has_type(&self, id: Id, ty: Ty) -> bool
        ensures { result ≡ stands (told (contents self.now).own id) (λ t. of_type.same_ty t.inst.ty ty) }
    {
        match self.lines.found(id) {
            Some(found) => found.inst.ty.same(ty),
            None => false,
        }
    }

    /// Whether a slot is there, and its operand has the type of another.
    fn fits_slot(&self, id: Id, slot: u32, to: &Opd) -> bool
        ensures { result ≡ stands (told (contents self.now).own id) (λ t. holds (slice_get t.inst.opds slot) (λ old. of_change.same_type (contents self.now).own t.place.func old to.now)) }
    {
        let Some(found) = self.lines.found(id) else {
            return false;
        };
        match found.inst.opds.get(slot as usize) {
            Some(old) => self.same_type(found.place.func, old, to),
            None => false,
        }
    }

    /// Whether two operands have one type in a function.
    fn same_type(&self, func: u32, old: &Opd, new: &Opd) -> bool
        ensures { result ≡ of_change.same_type (contents self.now).own func old.now new.now }
    {
        same_types(self.lines.ty_in(new, func), self.lines.ty_in(old, func))
    }

    /// Whether an id is in the module.
    fn is_known(&self, id: Id) -> bool
        ensures { result ≡ of_change.is_known (contents self.now).own id }
    {
        self.lines.param(id).is_some() || self.lines.found(id).is_some()
    }

    /// Whether what an operand names is in the module.
    fn is_there(&self, opd: &Opd) -> bool
        ensures { result ≡ of_change.is_there (contents self.now).own opd.now }
    {
        match opd {
            Opd::Val(id) => self.is_known(*id),
            Opd::Lit(_) => true,
            Opd::Sym(global) => (*global as usize) < self.lines.globals(),
        }
    }

    /// The same of several operands.
    fn are_there(&self, opds: &[Opd]) -> bool
        ensures { result ≡ all_there (contents self.now).own opds.now }
    {
        let mut left = opds;
        while let [opd, rest @ ..] = left {
            if !self.is_there(opd) {
                return false;
            }
            left = rest;
        }
        true
    }
}

/// Whether what an instruction does lets it move.
fn is_movable(op: &Op) -> bool
    ensures { result ≡ of_change.is_movable op.now }
{
    !is_phi(op) && !is_terminator(op)
}
