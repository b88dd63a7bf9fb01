//! `Found`: what stands for an id.
//!
//! Nothing here fails.

use ir_types::{Inst, Place, Ty};

/// What is found of an id.
#[derive(Drop)]
pub enum Found<'a> {
    /// The id is not in the module.
    Nothing,
    /// A parameter.
    Param { noalias: bool, ty: Ty },
    /// An instruction, with its block.
    Inst { place: Place, inst: &'a Inst },
}
