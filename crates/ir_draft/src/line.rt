//! `Line`: the form of one line.
//!
//! Nothing here fails but for want of memory.

use crate::{Head, Kept, Stmt};
use ir_types::{Bytes, Literal};
use std::alloc::{AllocError, Global};
use vx_list::{Equal, TryClone};

/// What one line of a module's text is.
#[derive(Debug, Drop)]
pub enum Line {
    /// A line without a token.
    Empty,
    /// A line outside functions that is kept.
    Kept(Kept),
    /// The first line of a function. Its name is the first plain one; the header is missing where it is outside the profile.
    Define {
        name: Option<Bytes>,
        head: Option<Head>,
    },
    /// `}`.
    Close,
    /// The label of a block, without its colon; of an unnamed block the digits of its number.
    Label(Bytes),
    /// An instruction.
    Stmt(Stmt),
    /// A case of a `switch`: a number and the block, without `%`.
    Case {
        value: Literal,
        label: Bytes,
    },
    /// `]`, the end of a `switch`.
    CasesEnd,
}

impl TryClone for Line {
    fn try_clone(&self, alloc: Global) -> Result<Self, AllocError> {
        match self {
            Line::Empty => Ok(Line::Empty),
            Line::Kept(kept) => Ok(Line::Kept(kept.try_clone(alloc)?)),
            Line::Define { name, head } => Ok(Line::Define {
                name: name.try_clone(alloc)?,
                head: head.try_clone(alloc)?,
            }),
            Line::Close => Ok(Line::Close),
            Line::Label(name) => Ok(Line::Label(name.try_clone(alloc)?)),
            Line::Stmt(stmt) => Ok(Line::Stmt(stmt.try_clone(alloc)?)),
            Line::Case { value, label } => Ok(Line::Case {
                value: value.try_clone(alloc)?,
                label: label.try_clone(alloc)?,
            }),
            Line::CasesEnd => Ok(Line::CasesEnd),
        }
    }
}

impl Equal for Line {
    fn equal(&self, other: &Self) -> bool {
        match (self, other) {
            (Line::Empty, Line::Empty) => true,
            (Line::Kept(kept), Line::Kept(other)) => kept.equal(other),
            (Line::Define { name, head }, Line::Define { name: n, head: h }) => name.equal(n)
                && head.equal(h),
            (Line::Close, Line::Close) => true,
            (Line::Label(name), Line::Label(other)) => name.equal(other),
            (Line::Stmt(stmt), Line::Stmt(other)) => stmt.equal(other),
            (Line::Case { value, label }, Line::Case { value: v, label: l }) => value.equal(v)
                && label.equal(l),
            (Line::CasesEnd, Line::CasesEnd) => true,
            _ => false,
        }
    }
}
