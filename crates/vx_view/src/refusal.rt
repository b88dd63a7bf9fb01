//! `ApplyRefusal`: why a change was not made.
//!
//! Either way the change is handed back, and nothing was changed.

use crate::Change;
use thiserror::Error;

/// Why a change was not made.
#[derive(Debug, Drop, Error)]
pub enum ApplyRefusal {
    /// The change does not fit the module.
    #[error("the change does not fit")]
    WrongPlace(Change),
    /// Memory was wanting, and the spare was less than the change costs.
    #[error("out of memory")]
    OutOfMemory(Change),
}
