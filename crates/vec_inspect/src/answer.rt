//! `Answer`: what a question is answered.
//!
//! Nothing here fails.

use vx_addr::Form;
use vx_deps::{Bundles, Reach};

/// An answer.
#[derive(Debug, Drop)]
pub(crate) enum Answer {
    /// The form of a pointer.
    Form(Form),
    /// Whether two instructions conflict.
    Conflict(bool),
    /// The instructions that end at the last of some.
    Reach(Reach),
    /// The groups of a window in their order.
    Order(Bundles),
    /// There is no order, for this cycle of groups.
    NoOrder(Bundles),
}
