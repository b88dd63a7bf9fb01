//! `Reach`: the instructions of a block that end at the last of a region's stores.
//!
//! Nothing here fails.

use ir_types::Ids;

/// The instructions that end at the last store.
#[derive(Debug, Drop)]
pub enum Reach {
    /// The at most 256 instructions that end at the last store, in block order; all stores are among them.
    Near(Ids),
    /// A store lies further from the last one.
    Far,
}
