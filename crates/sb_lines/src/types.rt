//! The type that an operand has in a function.
//!
//! `ty_in` is the entry point. A value has one where it is a parameter or an instruction of the function. Nothing here fails.

ghost use Rattle.std.specs.Prelude.{◌≡◌};
ghost use Rattle.ir_types.specs.declared.opd.Opd.TheVariants.{Sym};
ghost use Rattle.ir_types.specs.Formed as formed;
ghost use Rattle.sb_lines.specs.Types.{line_ty, value_ty, opd_ty, ty_of};
ghost use Rattle.sb_lines.specs.Arena.{standing};

use crate::arena::Arena;
use ir_types::{Id, Inst, Op, Opd, Ty};

/// The type of what an instruction gives.
fn given_ty(inst: &Inst) -> Ty
    ensures { result ≡ formed.given_ty inst.now.op inst.now.ty }
{
    match inst.op {
        Op::Store { .. } => Ty::Void,
        _ => inst.ty,
    }
}

impl Arena {
    /// The type of an operand in the function of a number.
    pub(crate) fn ty_in(&self, opd: &Opd, func: u32) -> Option<Ty>
        ensures { result ≡ ty_of self.now func opd.now }
    {
        if func < self.funcs {
            self.opd_ty(opd, func)
        } else {
            None
        }
    }

    /// The type of an operand in a function that is there.
    fn opd_ty(&self, opd: &Opd, func: u32) -> Option<Ty>
        ensures { result ≡ opd_ty self.now func opd.now }
    {
        match opd {
            Opd::Val(id) => self.value_ty(*id, func),
            Opd::Lit(literal) => Some(literal.ty),
            Opd::Sym(global) => self.global_ty(*global),
        }
    }

    /// The type of a global that is there.
    fn global_ty(&self, global: u32) -> Option<Ty>
        ensures { result ≡ opd_ty self.now 0 (Sym global) }
    {
        if (global as usize) < self.frame.globals.len() {
            Some(Ty::Ptr)
        } else {
            None
        }
    }

    /// The type of a value.
    fn value_ty(&self, id: Id, func: u32) -> Option<Ty>
        ensures { result ≡ value_ty self.now func id }
    {
        match self.params.get(id) {
            Some(spot) if spot.func == func => Some(spot.ty),
            _ => self.line_ty(id, func),
        }
    }

    /// The type of what an instruction of the function gives.
    fn line_ty(&self, id: Id, func: u32) -> Option<Ty>
        ensures { result ≡ line_ty func (standing self.now id) }
    {
        let found = self.found(id)?;
        if found.place.func == func {
            Some(given_ty(found.inst))
        } else {
            None
        }
    }
}
