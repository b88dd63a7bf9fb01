//! What modules mean: values, memories, one step, bounded runs, and when one module may stand for another.
//!
//! The meanings are definitions in `specs/`, which contracts of other crates cite; the code has the types alone that values,
//! memories and outcomes have. Nothing here fails but for want of memory.
#![tactic(auto)]

mod laws;
mod outcome;
mod value;

pub use laws::{
    callees_are_single, modules_refine, outcomes_refine, renumbered_refines, runs_are_call_free,
    steps_are_monotone, undefined_has_causes, values_keep_their_shapes,
};
pub use outcome::Outcome;
pub use value::Value;
use vx_list::Seq;

/// A list of values.
pub type Values = Seq<Value>;
/// An object: its bytes, of which each is a number or, where it is none, poison.
pub type Object = Seq<Option<u8>>;
/// A list of objects.
pub type Memory = Seq<Object>;

#[cfg(test)]
mod tests;
