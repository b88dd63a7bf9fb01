//! The draft of a module: its lines in their forms, with their numbers, before any name is looked up.
//!
//! This is data only; reading a whole text builds it. Nothing here fails but for want of memory.

use crate::{Head, Kept, Line};
use ir_types::Bytes;
use std::alloc::{AllocError, Global};
use vx_list::{Equal, Seq, TryClone};

/// A line of a function's body.
#[derive(Debug, Drop)]
pub struct Numbered {
    /// The line's number from 1.
    pub line: u32,
    pub form: Line,
}

/// The lines of a function between its header and its closing brace.
pub type Body = Seq<Numbered>;

/// An item of a module as it was read.
#[derive(Debug, Drop)]
pub enum DraftItem {
    /// A kept line.
    Kept {
        line: u32,
        kept: Kept,
    },
    /// A function outside the profile, from its header's line on.
    Opaque {
        line: u32,
        name: Option<Bytes>,
        text: Bytes,
    },
    /// A function of the profile, from its header's line on.
    Func {
        line: u32,
        head: Head,
        body: Body,
    },
}

/// The items of a module in order.
pub type DraftItems = Seq<DraftItem>;

/// A module as it was read.
#[derive(Debug, Drop)]
pub struct Draft {
    pub items: DraftItems,
}

impl TryClone for Numbered {
    fn try_clone(&self, alloc: Global) -> Result<Self, AllocError> {
        Ok(Numbered {
            line: self.line,
            form: self.form.try_clone(alloc)?,
        })
    }
}

impl Equal for Numbered {
    fn equal(&self, other: &Self) -> bool {
        self.line.equal(&other.line) && self.form.equal(&other.form)
    }
}

impl TryClone for DraftItem {
    fn try_clone(&self, alloc: Global) -> Result<Self, AllocError> {
        match self {
            DraftItem::Kept { line, kept } => Ok(DraftItem::Kept {
                line: line.try_clone(alloc)?,
                kept: kept.try_clone(alloc)?,
            }),
            DraftItem::Opaque { line, name, text } => Ok(DraftItem::Opaque {
                line: line.try_clone(alloc)?,
                name: name.try_clone(alloc)?,
                text: text.try_clone(alloc)?,
            }),
            DraftItem::Func { line, head, body } => Ok(DraftItem::Func {
                line: line.try_clone(alloc)?,
                head: head.try_clone(alloc)?,
                body: body.try_clone(alloc)?,
            }),
        }
    }
}

impl Equal for DraftItem {
    fn equal(&self, other: &Self) -> bool {
        match (self, other) {
            (DraftItem::Kept { line, kept }, DraftItem::Kept { line: l, kept: k }) => line.equal(l)
                && kept.equal(k),
            (
                DraftItem::Opaque { line, name, text },
                DraftItem::Opaque {
                    line: l,
                    name: n,
                    text: t,
                },
            ) => line.equal(l) && name.equal(n) && text.equal(t),
            (
                DraftItem::Func { line, head, body },
                DraftItem::Func {
                    line: l,
                    head: h,
                    body: b,
                },
            ) => line.equal(l) && head.equal(h) && body.equal(b),
            _ => false,
        }
    }
}

impl TryClone for Draft {
    fn try_clone(&self, alloc: Global) -> Result<Self, AllocError> {
        Ok(Draft {
            items: self.items.try_clone(alloc)?,
        })
    }
}

impl Equal for Draft {
    fn equal(&self, other: &Self) -> bool {
        self.items.equal(&other.items)
    }
}
