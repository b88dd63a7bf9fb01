//! `Effect`: what an instruction does to memory, kept to be compared with others.
//!
//! Nothing here fails.

use crate::address::Form;
use crate::kind::Kind;

/// What a load or a store touches.
#[derive(Debug, Drop)]
pub struct Touch {
    /// Its address.
    pub(crate) form: Form,
    /// What is known of where the root of its address points.
    pub(crate) kind: Kind,
    /// How many bytes it has.
    pub(crate) size: u16,
    pub(crate) writes: bool,
}

/// What an instruction does to memory.
#[derive(Debug, Drop)]
pub struct Effect {
    /// Whether it is a call.
    pub(crate) call: bool,
    /// Whether it keeps its order with calls.
    pub(crate) minds_calls: bool,
    /// What it touches, if it is a load or a store.
    pub(crate) touch: Option<Touch>,
}
