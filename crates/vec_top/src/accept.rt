//! Whether a text is a module that the program accepts.
//!
//! `accepted` is the one entry point: it reads the text, looks its names up and checks its types, then checks that each use is
//! available, then the layout. It answers with the module, or with the first cause against the text, or want of memory.

ghost use Rattle.std.specs.Prelude.{◌≡◌, ◌+◌, ◌<◌, ◌^◌, IfOk, [], length, slice_get, unwrap_or};
ghost use Rattle.ir_types.specs.Available as available;
ghost use Rattle.std.specs.Option.{option_copied};
ghost use Rattle.vec_top.specs.Accepts as accepts;
ghost use Rattle.vec_top.specs.Making as making;

use crate::cause::Cause;
use crate::fault::Fault;
use ir_avail::{AvailRefusal, check};
use ir_line::Draft;
use ir_print::shown_name;
use ir_read::{ReadRefusal, read};
use ir_types::{Block, Bytes, Func, Id, Inst, Item, Module, Numbers, Opd};
use ir_types_check::{ResolveRefusal, Resolved, resolve};
use std::alloc::{AllocError, Global};
use vx_list::Equal;

/// The text as a draft. The text is dropped.
fn drafted(alloc: Global, bytes: Vec<u8>) -> Result<Draft, Fault>
    requires { length bytes.items + 1 < 2 ^ 32 }
    ensures { making.Drafts bytes.items result }
{
    match read(alloc, bytes.as_slice()) {
        Ok(draft) => Ok(draft),
        Err(ReadRefusal::Lex { line, byte }) => Err(Fault::Refused(Cause::Lex { line, byte })),
        Err(ReadRefusal::NotALine { line }) => Err(Fault::Refused(Cause::NotALine { line })),
        Err(ReadRefusal::Misplaced { line }) => Err(Fault::Refused(Cause::Misplaced { line })),
        Err(ReadRefusal::Limit { which }) => Err(Fault::Refused(Cause::Passes { limit: which })),
        Err(ReadRefusal::OutOfMemory) => Err(Fault::NoMemory),
    }
}

/// The text with its names and types resolved.
fn resolved(alloc: Global, bytes: Vec<u8>) -> Result<Resolved, Fault>
    requires { length bytes.items + 1 < 2 ^ 32 }
    ensures { making.ResolvesTo bytes.items result }
{
    let draft = drafted(alloc, bytes)?;
    match resolve(alloc, draft) {
        Ok(resolved) => Ok(resolved),
        Err(ResolveRefusal::TwiceDefined { line, name }) => Err(Fault::Refused(Cause::TwiceDefined {
            line,
            name,
        })),
        Err(ResolveRefusal::Unknown { line, name }) => Err(Fault::Refused(Cause::Unknown {
            line,
            name,
        })),
        Err(ResolveRefusal::IllTyped { line }) => Err(Fault::Refused(Cause::IllTyped { line })),
        Err(ResolveRefusal::OutOfMemory) => Err(Fault::NoMemory),
    }
}

/// The first instruction of an id.
fn inst_among(id: Id, insts: &[Inst]) -> Option<&Inst>
    ensures { option_copied result ≡ accepts.inst_among id insts.now }
{
    for inst in insts {
        if inst.id.same(id) {
            return Some(inst);
        }
    }
    None
}

/// The same in some blocks.
fn inst_in(id: Id, blocks: &[Block]) -> Option<&Inst>
    ensures { option_copied result ≡ accepts.inst_in id blocks.now }
{
    for block in blocks {
        if let Some(inst) = inst_among(id, block.insts.as_slice()) {
            return Some(inst);
        }
    }
    None
}

/// What is shown in a function of the operand in a slot of an instruction, if it is a value.
fn shown_operand(alloc: Global, func: &Func, inst: &Inst, slot: u32) -> Result<Bytes, AllocError>
    ensures { IfOk result (λ name. name ≡ accepts.shown_operand func.now (slice_get inst.now.opds slot)) }
{
    match inst.opds.as_slice().get(slot as usize) {
        Some(Opd::Val(id)) => shown_name(alloc, func, *id),
        _ => Ok(Bytes::new(alloc)),
    }
}

/// What is shown of the operand in a slot of an instruction; nothing where the items lack it.
fn operand_in(alloc: Global, id: Id, slot: u32, items: &[Item]) -> Result<Bytes, AllocError>
    ensures { IfOk result (λ name. name ≡ unwrap_or (accepts.operand_in id slot items.now) []) }
{
    for item in items {
        if let Item::Func(func) = item {
            if let Some(inst) = inst_in(id, func.blocks.as_slice()) {
                return shown_operand(alloc, func, inst, slot);
            }
        }
    }
    Ok(Bytes::new(alloc))
}

/// The line of an instruction that was read.
fn line_of(resolved: &Resolved, id: Id) -> u32
    ensures { result ≡ accepts.line_of resolved.now id }
{
    match resolved.lines.get(id.k as usize) {
        Some(line) => *line,
        None => 0,
    }
}

/// The cause where a use is not available.
fn missed(
    alloc: Global,
    resolved: &Resolved,
    user: Id,
    slot: u32,
    walk: Numbers,
) -> Result<Cause, AllocError>
    ensures { IfOk result (λ cause. cause ≡ Cause.NotAvailable (accepts.line_of resolved.now user) (unwrap_or (accepts.operand_in user slot resolved.now.«module».items) []) walk) }
{
    let name = operand_in(alloc, user, slot, resolved.module.items.as_slice())?;
    Ok(Cause::NotAvailable {
        line: line_of(resolved, user),
        name,
        walk,
    })
}

/// The fault of a module in which not every use was found available.
fn unavailable(alloc: Global, resolved: &Resolved, refusal: AvailRefusal) -> Fault
    ensures { making.Blames resolved.now refusal result }
{
    match refusal {
        AvailRefusal::NotAvailable { user, slot, walk } => match missed(
            alloc, resolved, user, slot, walk,
        ) {
            Ok(cause) => Fault::Refused(cause),
            Err(_) => Fault::NoMemory,
        },
        AvailRefusal::OutOfMemory => Fault::NoMemory,
    }
}

/// The module, where no line says that the high byte comes first.
fn little_endian(m: Module) -> Result<Module, Fault>
    ensures { making.Orders m result }
{
    match m.big_endian_line {
        Some(line) => Err(Fault::Refused(Cause::BigEndian { line })),
        None => Ok(m),
    }
}

/// The module that a text is, where nothing is wrong with it. The text has fewer than 2^32 - 1 bytes.
pub(crate) fn accepted(alloc: Global, bytes: Vec<u8>) -> Result<Module, Fault>
    requires { length bytes.items + 1 < 2 ^ 32 }
    ensures { making.AcceptsTo bytes.items result }
{
    let resolved = resolved(alloc, bytes)?;
    if let Err(refusal) = check(alloc, &resolved.module) {
        return Err(unavailable(alloc, &resolved, refusal));
    }
    let Resolved { module, lines: _ } = resolved;
    little_endian(module)
}
