//! Where an instruction stands, and where one comes.
//!
//! Nothing here fails.

use ir_types::{Id, Inst, Place};

/// Where an instruction comes.
#[derive(Clone, Copy, Debug)]
pub enum Before {
    /// Just before the instruction of an id.
    Line(Id),
    /// At the end of a block.
    End(Place),
}

/// An instruction that was taken out, with the place that it had.
#[derive(Debug, Drop)]
pub struct Spot {
    pub inst: Inst,
    /// Before what it stood.
    pub before: Before,
}

/// An instruction that stands in a block.
#[derive(Drop)]
pub struct Found<'a> {
    pub place: Place,
    pub inst: &'a Inst,
}
