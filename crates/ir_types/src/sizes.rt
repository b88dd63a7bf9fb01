//! The sizes of what a module has most of: an instruction lies in its block's list, an operand in its instruction.

use crate::{Inst, Lits, Op, Opd};

const _: () = prove!(size_of::<Lits>() <= 16);

const _: () = prove!(size_of::<Opd>() <= 32);

const _: () = prove!(size_of::<Op>() <= 48);

const _: () = prove!(size_of::<Inst>() <= 176);
