//! `Form`: an address as a root and what is added to it.
//!
//! Nothing here fails.

use ir_types::{Id, Opd};

/// An address: a root, at most one value that is no literal with its scale, and a number of bytes, modulo 2^64.
#[derive(Debug, Drop)]
pub struct Form {
    pub root: Opd,
    pub symbol: Option<(Id, u64)>,
    pub constant: i64,
}
