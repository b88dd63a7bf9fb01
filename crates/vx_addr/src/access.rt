//! `Access`: what a load or a store touches.
//!
//! Nothing here fails.

ghost use Rattle.std.specs.Prelude.{◌≡◌, option_map};
ghost use Rattle.vx_view.specs.Conflicts.{bytes_of, access_of};
ghost use Rattle.vx_addr.specs.Parts.{as_access};

use ir_types::{Inst, Op, Opd, Ty};

/// Through which pointer, of how many bytes, and whether it writes.
#[derive(Drop)]
pub(crate) struct Access<'a> {
    pub(crate) pointer: &'a Opd,
    pub(crate) size: u16,
    pub(crate) writes: bool,
}

/// How many bytes a value of a type has in memory.
fn bytes_of(ty: Ty) -> u16
    ensures { result ≡ bytes_of ty }
{
    match ty {
        Ty::Int(width) => u16::from(width / 8),
        Ty::Row { n, w } => u16::from(n) * u16::from(w / 8),
        _ => 0,
    }
}

/// What an instruction touches, if it is a load or a store.
pub(crate) fn access_of(inst: &Inst) -> Option<Access<'_>>
    ensures { option_map as_access result ≡ access_of inst.now }
{
    match (&inst.op, inst.opds.as_slice()) {
        (Op::Load { .. }, [pointer]) => Some(Access {
            pointer,
            size: bytes_of(inst.ty),
            writes: false,
        }),
        (Op::Store { .. }, [_, pointer]) => Some(Access {
            pointer,
            size: bytes_of(inst.ty),
            writes: true,
        }),
        _ => None,
    }
}
