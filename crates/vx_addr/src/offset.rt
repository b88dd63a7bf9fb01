//! `Offset`: what is added to a pointer.
//!
//! Nothing here fails.

use ir_types::Id;

/// At most one value with a scale, and a number of bytes.
#[derive(Clone, Copy, Debug)]
pub(crate) struct Offset {
    pub(crate) symbol: Option<(Id, u64)>,
    pub(crate) constant: i64,
}
