//! `Start`: how a run begins.

use ir_model::{Memory, Values};

/// How a run of a function begins.
#[derive(Debug, Drop)]
pub struct Start {
    /// The function's number, from 0 among the functions of the profile.
    pub func: u32,
    /// One for each parameter.
    pub args: Values,
    /// The objects of the globals, and then those that arguments name.
    pub memory: Memory,
}
