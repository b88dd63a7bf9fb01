//! `Scope`: the names that an instruction is printed with.
//!
//! This is data only; nothing here fails.

use crate::names::Names;
use ir_types::Bytes;

/// What names operands have.
#[derive(Clone, Copy)]
pub(crate) struct Scope<'a, 'b> {
    /// The names of the function's values and blocks.
    pub(crate) names: &'a Names<'b>,
    /// The names of the module's globals.
    pub(crate) globals: &'b [Bytes],
}
