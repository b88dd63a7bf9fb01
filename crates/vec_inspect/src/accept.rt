//! Whether a text is a module that the program accepts: read, resolved, each use available, the low byte first.
//!
//! `accepted` is the entry point. It says only that a text is none; `sandvec print` tells the cause.

ghost use Rattle.std.specs.Prelude.{◌+◌, ◌<◌, ◌^◌, length, IfOk};
ghost use Rattle.ir_types.specs.Formed.{IsFormed};
ghost use Rattle.vec_inspect.specs.Accepted.{Resolves};

use crate::refusal::Refusal;
use ir_avail::{AvailRefusal, check};
use ir_read::{ReadRefusal, read};
use ir_types::Module;
use ir_types_check::{ResolveRefusal, Resolved, resolve};
use rf_formed::accepted_is_formed;
use std::alloc::Global;

/// The module of a text, its uses not looked at yet.
fn resolved(alloc: Global, bytes: &[u8]) -> Result<Module, Refusal>
    requires { length bytes.now + 1 < 2 ^ 32 }
    ensures { IfOk result (Resolves bytes.now) }
{
    let draft = match read(alloc, bytes) {
        Ok(draft) => draft,
        Err(ReadRefusal::OutOfMemory) => return Err(Refusal::OutOfMemory),
        Err(_) => return Err(Refusal::NoModule),
    };
    match resolve(alloc, draft) {
        Ok(Resolved { module, lines: _ }) => Ok(module),
        Err(ResolveRefusal::OutOfMemory) => Err(Refusal::OutOfMemory),
        Err(_) => Err(Refusal::NoModule),
    }
}

/// The module of a text. The text has fewer than 2^32 - 1 bytes.
pub(crate) fn accepted(alloc: Global, bytes: &[u8]) -> Result<Module, Refusal>
    requires { length bytes.now + 1 < 2 ^ 32 }
    ensures { IfOk result IsFormed }
{
    let module = resolved(alloc, bytes)?;
    accepted_is_formed();
    match check(alloc, &module) {
        Ok(()) => {}
        Err(AvailRefusal::OutOfMemory) => return Err(Refusal::OutOfMemory),
        Err(_) => return Err(Refusal::NoModule),
    }
    if module.big_endian_line.is_some() {
        return Err(Refusal::NoModule);
    }
    Ok(module)
}
