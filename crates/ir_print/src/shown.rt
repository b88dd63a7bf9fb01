//! How a value is shown in the text of its function.
//!
//! Want of memory is the only failure.

ghost use Rattle.std.specs.Prelude.{◌≡◌, IfOk};
ghost use Rattle.ir_print.specs.Names as names;
ghost use Rattle.ir_print.specs.Operands as operands;

use crate::names::Names;
use crate::operand::push_local;
use ir_types::{Bytes, Func, Id, OutOfMemory};
use std::alloc::Global;

/// What the text of a function shows of the value of an id: `%` and its written name or its number. Nothing of an id that is no
/// value of the function.
pub fn shown_name(alloc: Global, func: &Func, id: Id) -> Result<Bytes, OutOfMemory>
    ensures { IfOk result (λ name. name ≡ operands.local_text (names.local_of id (names.names_of func.now).locals)) }
{
    let names = Names::of(alloc, func)?;
    let mut name = Vec::new(alloc);
    push_local(&mut name, &names, id)?;
    Bytes::from_vec(alloc, name)
}
