//! `Legality`: how a bundle of lanes is had, but for the order of bundles.
//!
//! Nothing here fails.

use ir_types::Id;
use vx_serial::Cause;

/// How lanes are had, by the first rule that holds.
#[derive(Clone, Copy, Debug, PartialEq, Eq)]
pub enum Legality {
    /// By the widened node of this number, which has the same lanes.
    Reuse(u32),
    /// By the vector of this id, whose elements the lanes are, in order.
    Ident(Id),
    /// Lane by lane, for this cause.
    Pack(Cause),
    /// By one vector instruction, if the bundles have an order.
    Fits,
}
