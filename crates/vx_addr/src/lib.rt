//! Addresses over a view: the form of a pointer, and whether two instructions conflict.
//!
//! The entry points are `form` and `conflict`, and `effect_of` with `effects_conflict`, which keeps what is compared: no pair asks anew.
//! A view is asked for the definitions that are followed, one instruction at a time, and what the calls give is the definition's value in
//! every formed module that the view then stands for. `specs/Walks.antt` says which ids they ask for: those that were handed in, and
//! those that the walks follow or stop at. Want of memory is the only failure; the view may then have more notes, and is otherwise as
//! before. At most 64 definitions are followed for a pointer, so a call takes constant time but for what the view takes.
#![tactic(auto)]

mod access;
mod address;
mod conflicts;
mod effect;
mod effects;
mod forms;
mod indices;
mod kind;
mod lookup;
mod offset;
mod sum;
mod walk;

pub use address::Form;
pub use conflicts::conflict;
pub use effect::{Effect, Touch};
pub use effects::{effect_of, effects_conflict, effects_tell_conflicts};
pub use forms::form;
