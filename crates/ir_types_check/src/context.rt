//! `Context`: what is known of a function before its lines are gone through; `Spot`: where one of its lines stands.
//!
//! This is data only; nothing here fails.

use crate::edges::Sources;
use crate::locals::Meaning;
use crate::outline::At;
use crate::scope::Scope;
use crate::tops::Top;
use ir_line::Numbered;
use ir_types::Ty;

/// What a function's lines are read with.
#[derive(Clone, Copy)]
pub(crate) struct Context<'a> {
    /// What the names of the module mean.
    pub(crate) tops: &'a Scope<'static, Top>,
    /// What the names of the function mean.
    pub(crate) locals: &'a Scope<'a, Meaning>,
    /// For each block the blocks with an edge to it.
    pub(crate) sources: &'a Sources,
    /// The type that the function returns.
    pub(crate) ret: Ty,
    /// The number of its first parameter or instruction in the module.
    pub(crate) base: u32,
}

/// Where a line stands.
#[derive(Clone, Copy)]
pub(crate) struct Spot<'a> {
    /// Where it stands in the function.
    pub(crate) at: At,
    /// Its number in the text.
    pub(crate) line: u32,
    /// The lines of the function after it.
    pub(crate) rest: &'a [Numbered],
}
