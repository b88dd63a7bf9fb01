//! `At`: where in a function the next line stands.
//!
//! It is a few counts; a count that would pass its last value is answered as want of memory.

ghost use Rattle.std.specs.Prelude.{◌≡◌, ◌+◌, IfOk, length};
ghost use Rattle.ir_types.specs.Formed.{is_terminator};
ghost use Rattle.ir_types_check.specs.Outline as outline;

use crate::scope::copied;
use ir_line::{Line, Stmt};
use ir_types::{Bytes, Op, Param};
use std::alloc::{AllocError, Global};

/// Where the next line stands.
#[derive(Clone, Copy)]
pub(crate) struct At {
    /// The next number of what has no name.
    pub(crate) next: u32,
    /// How many parameters and instructions stand before.
    pub(crate) place: u32,
    /// How many blocks have begun.
    pub(crate) blocks: u32,
    /// Whether a block is open.
    pub(crate) is_open: bool,
}

/// One more.
pub(crate) fn one_more(count: u32) -> Result<u32, AllocError>
    ensures { IfOk result (λ more. more ≡ count + 1) }
{
    count.checked_add(1).ok_or(AllocError)
}

/// How many things there are in a list of so many.
pub(crate) fn count_of(len: usize) -> Result<u32, AllocError>
    ensures { IfOk result (λ count. count ≡ len) }
{
    if len < 1 << 32 {
        Ok(len as u32)
    } else {
        Err(AllocError)
    }
}

/// Whether a name is a number.
fn is_number(name: &[u8]) -> bool
    ensures { result ≡ outline.is_number name.now }
{
    match name {
        [] => false,
        [first, ..] => first.is_ascii_digit(),
    }
}

/// The name of a thing that is named, and none of a numbered one.
pub(crate) fn written(alloc: Global, name: &Option<Bytes>) -> Result<Option<Bytes>, AllocError>
    ensures { IfOk result (λ kept. kept ≡ outline.written name.now) }
{
    match name {
        None => Ok(None),
        Some(name) => written_name(alloc, name),
    }
}

/// The same of a name that is there.
pub(crate) fn written_name(alloc: Global, name: &Bytes) -> Result<Option<Bytes>, AllocError>
    ensures { IfOk result (λ kept. kept ≡ outline.written_name name.now) }
{
    if is_number(name.as_slice()) {
        Ok(None)
    } else {
        Ok(Some(copied(alloc, name.as_slice())?))
    }
}

/// The counter after a name.
fn after_name(next: u32, name: &[u8]) -> Result<u32, AllocError>
    ensures { IfOk result (λ after. after ≡ outline.after_name next name.now) }
{
    if is_number(name) {
        one_more(next)
    } else {
        Ok(next)
    }
}

/// The counter after a result, if there is one.
fn after_result(next: u32, name: &Option<Bytes>) -> Result<u32, AllocError>
    ensures { IfOk result (λ after. after ≡ outline.after_result next name.now) }
{
    match name {
        None => Ok(next),
        Some(name) => after_name(next, name.as_slice()),
    }
}

/// The counter after a parameter.
fn after_param(next: u32, name: &Option<Bytes>) -> Result<u32, AllocError>
    ensures { IfOk result (λ after. after ≡ outline.after_param next name.now) }
{
    match name {
        None => one_more(next),
        Some(name) => after_name(next, name.as_slice()),
    }
}

/// Whether an operation ends its block.
pub(crate) fn is_terminator(op: &Op) -> bool
    ensures { result ≡ is_terminator op.now }
{
    match op {
        Op::Ret | Op::Br { .. } | Op::CondBr { .. } | Op::Switch { .. } | Op::Unreachable => true,
        _ => false,
    }
}

impl At {
    /// Before the header.
    pub(crate) fn start() -> At
        ensures { result ≡ outline.start }
    {
        At {
            next: 0,
            place: 0,
            blocks: 0,
            is_open: false,
        }
    }

    /// After a parameter.
    #[tactic(auto, unfolding(crate::specs::Outline::past_param))]
    pub(crate) fn past_param(self, param: &Param) -> Result<At, AllocError>
        ensures { IfOk result (λ at. at ≡ outline.past_param self param.now) }
    {
        let next = after_param(self.next, &param.name)?;
        let place = one_more(self.place)?;
        Ok(At {
            next,
            place,
            ..self
        })
    }

    /// With a block open.
    #[tactic(auto, unfolding(crate::specs::Outline::opened))]
    pub(crate) fn opened(self) -> Result<At, AllocError>
        ensures { IfOk result (λ at. at ≡ outline.opened self) }
    {
        if self.is_open {
            return Ok(self);
        }
        let next = one_more(self.next)?;
        let blocks = one_more(self.blocks)?;
        Ok(At {
            next,
            place: self.place,
            blocks,
            is_open: true,
        })
    }

    /// After a label.
    #[tactic(auto, unfolding(crate::specs::Outline::after_label))]
    pub(crate) fn after_label(self, name: &[u8]) -> Result<At, AllocError>
        ensures { IfOk result (λ at. at ≡ outline.after_label self name.now) }
    {
        let next = after_name(self.next, name)?;
        let blocks = one_more(self.blocks)?;
        Ok(At {
            next,
            place: self.place,
            blocks,
            is_open: true,
        })
    }

    /// After an instruction in the open block.
    #[tactic(auto, unfolding(crate::specs::Outline::after_inst))]
    pub(crate) fn after_inst(self, stmt: &Stmt) -> Result<At, AllocError>
        ensures { IfOk result (λ at. at ≡ outline.after_inst self stmt.now) }
    {
        let next = after_result(self.next, &stmt.result)?;
        let place = one_more(self.place)?;
        let is_open = !is_terminator(&stmt.op);
        Ok(At {
            next,
            place,
            blocks: self.blocks,
            is_open,
        })
    }

    /// After a line.
    pub(crate) fn past(self, form: &Line) -> Result<At, AllocError>
        ensures { IfOk result (λ at. at ≡ outline.past self form.now) }
    {
        match form {
            Line::Label(name) => self.after_label(name.as_slice()),
            Line::Stmt(stmt) => self.opened()?.after_inst(stmt),
            _ => Ok(self),
        }
    }

    /// The number of the block in which an instruction here stands.
    #[tactic(auto, unfolding(crate::specs::Outline::opened))]
    pub(crate) fn block_here(self) -> u32
        ensures { result ≡ outline.block_here self }
    {
        if self.is_open {
            self.blocks.saturating_sub(1)
        } else {
            self.blocks
        }
    }
}
